// What the program prints: bytes in hex, names, the record, and which words a call changed.
use rules::{Backup, Controller, Phase, Registers};
use std::fmt;

#[derive(Clone, Copy)]
pub struct Hex<'a>(pub &'a [u8]);

impl fmt::Display for Hex<'_> {
    fn fmt<W: fmt::Write>(&self, f: &mut fmt::Formatter<W>) -> fmt::Result {
        for byte in self.0 {
            write!(f, "{byte:02x}")?;
        }
        Ok(())
    }
}

// Words of a part from one place on, as many as there are.
#[derive(Clone, Copy)]
pub struct Part<'a> {
    bytes: &'a [u8],
    start: usize,
    count: usize,
}

impl<'a> Part<'a> {
    // The count is of words, and may be more than there are.
    pub fn new(bytes: &'a [u8], start: usize, count: usize) -> Part<'a> {
        Part {
            bytes,
            start,
            count,
        }
    }
}

impl fmt::Display for Part<'_> {
    fn fmt<W: fmt::Write>(&self, f: &mut fmt::Formatter<W>) -> fmt::Result {
        let words = self.bytes.chunks_exact(8);
        for word in words.skip(self.start).take(self.count) {
            write!(f, " {}", Hex(word))?;
        }
        Ok(())
    }
}

#[derive(Clone, Copy)]
pub struct Table<'a>(pub &'a [u64]);

impl fmt::Display for Table<'_> {
    fn fmt<W: fmt::Write>(&self, f: &mut fmt::Formatter<W>) -> fmt::Result {
        for word in self.0 {
            write!(f, " {word}")?;
        }
        Ok(())
    }
}

// A value of the board, by its name.
#[derive(Clone, Copy)]
pub struct Name<T>(pub T);

impl fmt::Display for Name<Phase> {
    fn fmt<W: fmt::Write>(&self, f: &mut fmt::Formatter<W>) -> fmt::Result {
        match self.0 {
            Phase::Running => f.write_str("Running"),
            Phase::Writing(count) => write!(f, "Writing {count}"),
            Phase::Off => f.write_str("Off"),
        }
    }
}

impl fmt::Display for Name<Backup> {
    fn fmt<W: fmt::Write>(&self, f: &mut fmt::Formatter<W>) -> fmt::Result {
        f.write_str(match self.0 {
            Backup::A => "A",
            Backup::B => "B",
        })
    }
}

// Whether a recovery has registers.
impl fmt::Display for Name<Registers> {
    fn fmt<W: fmt::Write>(&self, f: &mut fmt::Formatter<W>) -> fmt::Result {
        f.write_str(match self.0 {
            Registers::Saved => "saved",
            Registers::Absent => "absent",
        })
    }
}

// The sizes, the phase, the finished backup and the first register byte.
#[derive(Clone, Copy)]
pub struct Record(pub Controller);

impl fmt::Display for Record {
    fn fmt<W: fmt::Write>(&self, f: &mut fmt::Formatter<W>) -> fmt::Result {
        let Controller {
            geometry,
            registers,
            finished,
            phase,
        } = self.0;
        write!(f, " {} {}", geometry.blocks, geometry.slots)?;
        write!(
            f,
            " {} {} {:02x}",
            Name(phase),
            Name(finished),
            registers[0]
        )
    }
}

// Changed words that follow one another, by the places of the first and the last.
#[derive(Clone, Copy)]
struct Run {
    first: usize,
    last: usize,
}

impl fmt::Display for Run {
    fn fmt<W: fmt::Write>(&self, f: &mut fmt::Formatter<W>) -> fmt::Result {
        let Run { first, last } = *self;
        if first == last {
            return write!(f, " {first}");
        }
        write!(f, " {first}-{last}")
    }
}

// The places of the words that differ, in runs, as far as both parts reach.
#[derive(Clone, Copy)]
pub struct Changes<'a> {
    pub old: &'a [u8],
    pub new: &'a [u8],
}

impl fmt::Display for Changes<'_> {
    fn fmt<W: fmt::Write>(&self, f: &mut fmt::Formatter<W>) -> fmt::Result {
        let words = self.old.chunks_exact(8).zip(self.new.chunks_exact(8));
        let mut run: Option<Run> = None;
        for (place, (old, new)) in words.enumerate() {
            if old != new {
                let first = run.map_or(place, |run| run.first);
                run = Some(Run { first, last: place });
            } else if let Some(ended) = run.take() {
                write!(f, "{ended}")?;
            }
        }
        match run {
            Some(ended) => write!(f, "{ended}"),
            None => Ok(()),
        }
    }
}
