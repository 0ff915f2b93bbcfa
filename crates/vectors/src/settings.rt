// The lines of the case file that set the bench.
use crate::bench::Lengths;
use crate::text::Line;
use rules::{Backup, Geometry, Phase};

#[derive(Clone, Copy)]
pub enum Setting {
    // a new board
    Board(Geometry),
    Lend(Lengths),
    // the first words of the table
    Table([u64; 3]),
    Word { place: usize, value: u64 },
    // of the record
    Sizes(Geometry),
    Finished(Backup),
    Phase(Phase),
}

fn backup_in(line: Line<'_>) -> Backup {
    if line.number(1) == 2 {
        return Backup::B;
    }
    Backup::A
}

impl Setting {
    pub fn parse(line: Line<'_>) -> Option<Setting> {
        Some(match line.name() {
            b"board" => Setting::Board(line.sizes()),
            b"lend" => Setting::Lend(Lengths {
                memory: line.size(1),
                cache: line.size(2),
                table: line.size(3),
            }),
            b"table" => Setting::Table([line.number(1), line.number(2), line.number(3)]),
            b"word" => Setting::Word {
                place: line.size(1),
                value: line.number(2),
            },
            b"sizes" => Setting::Sizes(line.sizes()),
            b"finished" => Setting::Finished(backup_in(line)),
            b"running" => Setting::Phase(Phase::Running),
            b"writing" => Setting::Phase(Phase::Writing(line.short(1))),
            b"off" => Setting::Phase(Phase::Off),
            _ => return None,
        })
    }
}
