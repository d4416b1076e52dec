// The counts of a run: steps by kind, lines taken, and reads and writes by register.
#![tactic(auto)]

ghost use Rattle.std.specs.Prelude.{◌≡◌, ◌+◌, ◌<◌, eqb, length, get_or};
ghost use Rattle.kinds.specs.Kinds.{kind_count, kind_number};
ghost use Rattle.isa.specs.Masks.{masks_of};
ghost use Rattle.usage.specs.Usage.{word_is, counted, unused};
ghost use Rattle.usage.specs.Counting.{Countable, either_of, nowhere, raised, raised_by, counted_steps, Room, Few, ticks_counted};

use kinds::Kind;

#[repr(C)]
#[derive(Clone, Copy)]
pub struct Usage {
    pub kinds: [u64; kinds::COUNT],
    pub taken: u64,
    pub reads: [u64; 8],
    pub writes: [u64; 8],
}

// n more at k.
fn add(xs: &mut [u64], k: usize, n: u64)
    requires { (k < length xs.old) × (get_or xs.old k 0 + n < 18446744073709551616) }
    ensures { xs.new ≡ raised n (eqb k) xs.old }
{
    xs[k] += n;
}

// A kind's place among the counts.
#[tactic(auto, using(isa::proofs::Every::listed))]
fn place(kind: Kind) -> usize
    ensures { (result ≡ kind_number kind) × (result < kind_count) }
{
    usize::from(u8::from(kind))
}

// Of the methods with n, each counts n steps of a kind.
impl Usage {
    pub fn none() -> Self
        ensures { result ≡ unused }
    {
        Self {
            kinds: [0; kinds::COUNT],
            taken: 0,
            reads: [0; 8],
            writes: [0; 8],
        }
    }

    // They touch no register.
    fn touch_none(&mut self, kind: Kind, n: u64)
        requires { Room n self.old }
        ensures { self.new ≡ raised_by n (eqb (kind_number kind)) nowhere nowhere self.old }
    {
        add(&mut self.kinds, place(kind), n);
    }

    // They read Ra.
    fn read_one(&mut self, kind: Kind, a: usize, n: u64)
        requires { (a < 8) × Room n self.old }
        ensures { self.new ≡ raised_by n (eqb (kind_number kind)) (eqb a) nowhere self.old }
    {
        add(&mut self.kinds, place(kind), n);
        add(&mut self.reads, a, n);
    }

    // They write Rd.
    fn write_one(&mut self, kind: Kind, d: usize, n: u64)
        requires { (d < 8) × Room n self.old }
        ensures { self.new ≡ raised_by n (eqb (kind_number kind)) nowhere (eqb d) self.old }
    {
        add(&mut self.kinds, place(kind), n);
        add(&mut self.writes, d, n);
    }

    // They read Ra and Rb: one read where the two are one register.
    fn read_two(&mut self, kind: Kind, a: usize, b: usize, n: u64)
        requires { (a < 8) × (b < 8) × Room n self.old }
        ensures { self.new ≡ raised_by n (eqb (kind_number kind)) (either_of a b) nowhere self.old }
    {
        add(&mut self.kinds, place(kind), n);
        add(&mut self.reads, a, n);
        if b != a {
            add(&mut self.reads, b, n);
        }
    }

    // They read Ra and write Rd.
    fn compute_one(&mut self, kind: Kind, a: usize, d: usize, n: u64)
        requires { (a < 8) × (d < 8) × Room n self.old }
        ensures { self.new ≡ raised_by n (eqb (kind_number kind)) (eqb a) (eqb d) self.old }
    {
        self.read_one(kind, a, n);
        add(&mut self.writes, d, n);
    }

    // They read Ra and Rb and write Rd.
    fn compute_two(&mut self, kind: Kind, a: usize, b: usize, d: usize, n: u64)
        requires { (a < 8) × (b < 8) × (d < 8) × Room n self.old }
        ensures { self.new ≡ raised_by n (eqb (kind_number kind)) (either_of a b) (eqb d) self.old }
    {
        self.read_two(kind, a, b, n);
        add(&mut self.writes, d, n);
    }

    // n steps more, of the word w. (Inlined, since a run calls it for each of its steps, by an n that is known.)
    #[inline(always)]
    pub fn count_steps(&mut self, w: u16, n: u64)
        requires { Room n self.old }
        ensures { self.new ≡ counted_steps n w self.old }
    {
        let a = (w / 512 % 8) as usize;
        let b = (w / 64 % 8) as usize;
        let e = w / 256 % 2;
        let d = (w / 8 % 8) as usize;
        let f = w % 8;
        match w / 4096 {
            0 => {
                if f == 3 {
                    self.compute_one(Kind::Not, a, d, n)
                } else if let Some(kind) = isa::rows::kind_of(w) {
                    self.compute_two(kind, a, b, d, n)
                }
            }
            1 | 11 => {
                if let Some(kind) = isa::rows::kind_of(w) {
                    self.compute_two(kind, a, b, d, n)
                }
            }
            2 => self.compute_one(Kind::Addi, a, b, n),
            3 => self.compute_one(Kind::Ld, a, b, n),
            4 => self.read_two(Kind::St, a, b, n),
            5 => self.compute_one(Kind::Ldb, a, b, n),
            6 => self.read_two(Kind::Stb, a, b, n),
            7 => self.compute_one(Kind::Jalr, a, b, n),
            8 => {
                let kind = if e == 0 { Kind::Bz } else { Kind::Bnz };
                self.read_one(kind, a, n)
            }
            9 => {
                if e == 0 {
                    self.write_one(Kind::Movi, a, n)
                } else {
                    self.compute_one(Kind::Movhi, a, a, n)
                }
            }
            10 => {
                if e == 0 {
                    self.write_one(Kind::In, a, n)
                } else {
                    self.read_one(Kind::Out, a, n)
                }
            }
            12 => {
                if f == 3 {
                    self.write_one(Kind::Getiid, d, n)
                } else if let Some(kind) = isa::rows::kind_of(w) {
                    self.touch_none(kind, n)
                }
            }
            _ => {}
        }
    }

    // One step more, of the word w.
    #[inline(always)]
    pub fn tally(&mut self, w: u16)
        requires { Countable self.old }
        ensures { self.new ≡ counted (word_is w) (masks_of w) self.old }
    {
        self.count_steps(w, 1)
    }

    // How many steps were of a kind.
    fn steps_of(&self, kind: Kind) -> u64
        ensures { result ≡ get_or self.now.kinds (kind_number kind) 0 }
    {
        self.kinds[place(kind)]
    }

    // The ticks of so many steps: one more for each LD, ST, LDB and STB.
    pub fn ticks(&self, steps: u32) -> u64
        requires { Few self.now.kinds }
        ensures { result ≡ ticks_counted steps self.now.kinds }
    {
        let loads = self.steps_of(Kind::Ld) + self.steps_of(Kind::Ldb);
        let stores = self.steps_of(Kind::St) + self.steps_of(Kind::Stb);
        3 * u64::from(steps) + loads + stores
    }
}
