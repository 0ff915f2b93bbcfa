// The board's sizes, record and answers as Rattle types, and the start of each part of the memory (document 01).
#![tactic(auto)]

ghost use Rattle.std.specs.Prelude.{◌≡◌};
ghost use Rattle.rules.specs.Geometry.{checkpoint_start, checkpoint_words, home_start, home_words, backup_start, backup_words, mark_start, memory_words};

mod codes;

// The sizes of a board: N blocks and B table slots. Two bytes each, so that no start of a part can overflow.
#[derive(Clone, Copy, Debug, PartialEq, Eq)]
pub struct Geometry {
    pub blocks: u16,
    pub slots: u16,
}

impl Geometry {
    pub const MAX_BLOCKS: u16 = 4096;

    pub const MAX_SLOTS: u16 = 512;

    pub const BLOCK_WORDS: usize = 8;

    pub const REGISTER_WORDS: usize = 8;

    pub fn home_start(self) -> usize
        ensures { result ≡ home_start self }
    {
        0
    }

    pub fn home_words(self) -> usize
        ensures { result ≡ home_words self }
    {
        Self::BLOCK_WORDS * (self.blocks as usize)
    }

    pub fn checkpoint_start(self) -> usize
        ensures { result ≡ checkpoint_start self }
    {
        self.home_start() + self.home_words()
    }

    pub fn checkpoint_words(self) -> usize
        ensures { result ≡ checkpoint_words self }
    {
        Self::BLOCK_WORDS * (self.slots as usize)
    }

    pub fn backup_words(self) -> usize
        ensures { result ≡ backup_words self }
    {
        Self::REGISTER_WORDS + (self.slots as usize)
    }

    pub fn backup_start(self, backup: Backup) -> usize
        ensures { result ≡ backup_start self backup }
    {
        let first = self.checkpoint_start() + self.checkpoint_words();
        match backup {
            Backup::A => first,
            Backup::B => first + self.backup_words(),
        }
    }

    pub fn mark_start(self) -> usize
        ensures { result ≡ mark_start self }
    {
        self.backup_start(Backup::B) + self.backup_words()
    }

    pub fn memory_words(self) -> usize
        ensures { result ≡ memory_words self }
    {
        self.mark_start() + 1
    }
}

#[derive(Clone, Copy, Debug, PartialEq, Eq)]
pub enum Backup {
    A,
    B,
}

#[derive(Clone, Copy, Debug, PartialEq, Eq)]
pub enum Phase {
    Running,
    // the count of words already stored
    Writing(u16),
    Off,
}

// The controller record. It goes into a call and comes back by value.
#[derive(Clone, Copy, Debug, PartialEq, Eq)]
pub struct Controller {
    pub geometry: Geometry,
    pub registers: [u8; 64],
    pub finished: Backup,
    pub phase: Phase,
}

// The state of an entry of the table.
#[derive(Clone, Copy, Debug, PartialEq, Eq)]
pub enum State {
    Clean,
    Dirty,
    Hidden,
    PreHidden,
    PreDirty,
}

// An entry of the table, as a lookup finds it.
#[derive(Clone, Copy, Debug, PartialEq, Eq)]
pub struct Entry {
    pub slot: usize,
    pub state: State,
}

// A part of the board that holds blocks.
#[derive(Clone, Copy, Debug, PartialEq, Eq)]
pub enum Place {
    Home,
    Checkpoint,
    Cache,
}

// The words of a new block that a store lays: `count` of them, from word `first` of the block on.
#[derive(Clone, Copy, Debug, PartialEq, Eq)]
pub struct Window {
    pub first: usize,
    pub count: usize,
}

// The numbers returned, by their names.
#[derive(Clone, Copy, Debug, PartialEq, Eq)]
pub enum Number {
    Done,
    Geometry,
    Buffer,
    Record,
    Off,
    Table,
    Range,
    Full,
    Busy,
    Idle,
    NoCheckpoint,
    Backup,
    // of the new stored form alone (document 02, No. 6)
    NoHeader,
    WrongBoard,
    Cut,
}

// The answer of a call that may store words or change the record.
#[derive(Clone, Copy, Debug, PartialEq, Eq)]
pub struct Answer {
    pub number: Number,
    pub words: usize,
    pub controller: Controller,
}

// Whether there are registers: a recovery hands them out in its record, or says that there are none (document 02, No. 2).
#[derive(Clone, Copy, Debug, PartialEq, Eq)]
pub enum Registers {
    Saved,
    Absent,
}

// The answer of a recovery.
#[derive(Clone, Copy, Debug, PartialEq, Eq)]
pub struct Recovery {
    pub answer: Answer,
    pub registers: Registers,
}
