// The words of a checkpoint, laid for the backup that isn't finished (document 01, Checkpoints).
ghost use Rattle.std.specs.Prelude.{◌≡◌, map, ◌+◌, ◌*◌, ◌≤◌, ◌<◌, length, take, drop};
ghost use Rattle.words.specs.Words.{Lays, lay};
ghost use Rattle.rules.specs.Geometry.{memory_words};
ghost use Rattle.rules.specs.TableWords.{changed};
ghost use Rattle.rules.specs.Checkpoints as R;
ghost use Rattle.checkpoints.specs.Records.{stepped_record};
ghost use Rattle.checkpoints.specs.Backups.{backup_list, Room};

use rules::{Backup, Controller, Geometry, Phase};
use words::{lay_bytes, lay_number};

// The backup that isn't finished. A `!` of a Backup would be no plainer.
pub fn other(finished: Backup) -> Backup
    ensures { result ≡ R.other finished }
{
    match finished {
        Backup::A => Backup::B,
        Backup::B => Backup::A,
    }
}

// Clean and pre-hidden are saved as clean, all else as free.
// By the number of its code: a State made of it would be a second test of a word in the walk.
pub fn saved_word(word: u64) -> u64
    ensures { result ≡ changed R.saved word }
{
    match word % 256 {
        1 => word,
        4 => word - 3,
        _ => 0,
    }
}

// Word `index` of a checkpoint's list, in the part that starts with the backup.
pub fn lay_word(
    part: &mut [u8],
    place: usize,
    mark: u64,
    registers: &[u8],
    table: &[u64],
    index: usize,
)
    requires { Room place (length table.now) (length part.old) × (index < length table.now + 9) × (length registers.now ≡ 64) }
    ensures { part.new ≡ lay (take 1 (drop index (backup_list place mark registers.now (map (changed R.saved) table.now)))) part.old }
{
    if index < Geometry::REGISTER_WORDS {
        let from = 8 * index;
        lay_bytes(part, index, &registers[from..], 1, 1);
        return;
    }
    let slot = index - Geometry::REGISTER_WORDS;
    if slot < table.len() {
        lay_number(part, index, saved_word(table[slot]), 1);
        return;
    }
    lay_number(part, place, mark, 1);
}

// So many words of a checkpoint's list from the count on, under an allowance.
// The count and the words are of the list, and no length of a slice.
pub fn lay_words(
    part: &mut [u8],
    place: usize,
    mark: u64,
    registers: &[u8],
    table: &[u64],
    count: usize,
    words: usize,
    p: usize,
) -> usize
    requires { Room place (length table.now) (length part.old) × (count + words ≤ length table.now + 9) × (length registers.now ≡ 64) }
    ensures { Lays p (take words (drop count (backup_list place mark registers.now (map (changed R.saved) table.now)))) part.old part.new result }
{
    for index in count..count + p.min(words) {
        lay_word(part, place, mark, registers, table, index);
    }
    words
}

// The same in the memory. The part starts with the backup and reaches to the mark.
pub fn lay_next(
    memory: &mut [u8],
    table: &[u64],
    controller: Controller,
    count: usize,
    words: usize,
    p: usize,
) -> usize
    requires { (length memory.old ≡ 8 * memory_words controller.geometry) × (length table.now ≡ controller.geometry.slots) × (count + words ≤ controller.geometry.slots + 9) }
    ensures { Lays p (take words (drop count (R.checkpoint_list controller.geometry (R.other controller.finished) controller.registers (map (changed R.saved) table.now)))) memory.old memory.new result }
{
    let g = controller.geometry;
    let backup = other(controller.finished);
    let start = g.backup_start(backup);
    let place = g.mark_start() - start;
    // the registers alone: lent from the record, all of it would be copied
    let registers = controller.registers;
    lay_words(
        &mut memory[8 * start..],
        place,
        u64::from(backup),
        &registers,
        table,
        count,
        words,
        p,
    )
}

// The record after a step up to a count.
pub fn stepped(controller: Controller, count: usize) -> Controller
    requires { count ≤ 521 }
    ensures { result ≡ stepped_record controller count }
{
    if count == (controller.geometry.slots as usize) + 9 {
        return Controller {
            finished: other(controller.finished),
            phase: Phase::Running,
            ..controller
        };
    }
    Controller {
        phase: Phase::Writing(count as u16),
        ..controller
    }
}
