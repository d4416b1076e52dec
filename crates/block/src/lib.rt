// Copying a block of bytes.
#![tactic(auto)]

ghost use Rattle.std.specs.Prelude.{◌≡◌, length};

// Byte by byte, which the compiler makes a call of memcpy: the library's copy_from_slice calls memmove, which a C host may not have.
pub fn copy(source: &[u8], target: &mut [u8])
    requires { length source.now ≡ length target.old }
    ensures { target.new ≡ source.now }
{
    for i in 0..target.len() {
        target[i] = source[i];
    }
}
