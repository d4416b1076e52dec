// The numbered refusals of 01's table and of 02; specs/Refusals.antt has the number and the condition of each.
#![tactic(auto)]

ghost use Rattle.std.specs.Prelude.{◌≡◌};
ghost use Rattle.refusal.specs.Refusals.{refusal_number};

#[derive(Clone, Copy, Debug, PartialEq, Eq)]
pub enum Refusal {
    LentLength = 1,
    ShortFile = 2,
    LargePart = 3,
    PartOutside = 4,
    OddPc = 5,
    StepCount = 6,
    InstructionPart = 7,
    LongFile = 8,
    ShortDestination = 9,
    TextLine = 10,
    TextName = 11,
    TextValue = 12,
    FullSheet = 13,
    ShortJournal = 14,
    SmallBoard = 15,
    LineNumber = 16,
    TrimCount = 17,
    LockedRange = 18,
}

// The refusal's number in the table.
impl From<Refusal> for u8 {
    ghost from_gives = { λ refusal n. n ≡ refusal_number refusal };

    fn from(refusal: Refusal) -> u8 {
        refusal as u8
    }
}
