// A backup read: which one the mark calls finished, whether its table is sound, its table, and its registers or their absence
// (document 01, Checkpoints; document 02, No. 2).
#![tactic(auto)]

ghost use Rattle.std.specs.Prelude.{◌≡◌, cond, List, [], ℕ, ◌+◌, ◌*◌, ◌≤◌, length, None, Some};
ghost use Rattle.words.specs.Words.{numbers, words};
ghost use Rattle.rules.specs.Geometry.{backup_words, memory_words};
ghost use Rattle.rules.specs.Numbers.{well_formed};
ghost use Rattle.rules.specs.Starts.{finished_by, has_registers, mark_in, only_clean, sound, registers_of};
ghost use Rattle.backups.specs.Sets.{Marks, Took};
ghost use Rattle.backups.specs.Records.{started_of, opened_of, refused_recovery, Opens};

use checks::answers::{refused, reply};
use rules::{Backup, Controller, Geometry, Number, Phase, Recovery, Registers};
pub use sets::BlockSet;
use words::{copy_part, number_at};

mod sets;

// The backup that a mark names.
pub fn finished_by(mark: u64) -> Option<Backup>
    ensures { result ≡ finished_by mark }
{
    match mark {
        1 => Some(Backup::A),
        2 => Some(Backup::B),
        3 => Some(Backup::A),
        _ => None,
    }
}

// Whether the backup that a mark names has registers.
pub fn registers_by(mark: u64) -> Registers
    ensures { (bytes : List ℕ) → registers_of result bytes ≡ cond (has_registers mark) (Some bytes) None }
{
    match mark {
        3 => Registers::Absent,
        _ => Registers::Saved,
    }
}

pub fn mark_in(memory: &[u8], g: Geometry) -> u64
    requires { length memory.now ≡ 8 * memory_words g }
    ensures { result ≡ mark_in g memory.now }
{
    let start = 8 * g.mark_start();
    number_at(&memory[start..], 0)
}

// Whether a saved word is 0, or clean with a block of the board.
// By the number of its code: a State made of it would be a second test of a word in the walk.
pub fn clean_word(word: u64, g: Geometry) -> bool
    ensures { result ≡ well_formed only_clean g word }
{
    if word == 0 {
        return true;
    }
    (word % 256 == 1) & (word / 256 < g.blocks as u64)
}

// That there are at most 4,096 blocks stands in each contract: a Geometry may have any number.
// For a caller whose words are lent: they are copied into a set, which takes the word by its method, and copied back.
pub fn take_word(word: u64, g: Geometry, set: &mut [u64]) -> bool
    requires { (g.blocks ≤ 4096) × (length set.old ≡ 64) }
    ensures { (after : List ℕ) → Marks set.old after → Took g word after set.new result }
{
    let mut held = BlockSet::empty();
    held.words.copy_from_slice(set);
    let taken = held.take(word, g);
    set.copy_from_slice(&held.words);
    taken
}

// From the last slot to the first, since a word is compared with those after it.
pub fn backup_sound(part: &[u8], g: Geometry) -> bool
    requires { (g.blocks ≤ 4096) × (8 * backup_words g ≤ length part.now) }
    ensures { result ≡ sound g (numbers part.now 8 g.slots) }
{
    let mut set = BlockSet::empty();
    for slot in (0..g.slots as usize).rev() {
        if !set.take(number_at(part, 8 + slot), g) {
            return false;
        }
    }
    true
}

// As the C door's `read_table`, which promises more: that the words give all of its bytes back.
pub fn copy_table(part: &[u8], table: &mut [u64])
    requires { 8 * (8 + length table.old) ≤ length part.now }
    ensures { table.new ≡ numbers part.now 8 (length table.old) }
{
    for slot in 0..table.len() {
        table[slot] = number_at(part, 8 + slot);
    }
}

// The record of a board that starts from a backup.
pub fn started(g: Geometry, backup: Backup, registers: [u8; 64]) -> Controller
    ensures { result ≡ started_of g backup registers }
{
    Controller {
        geometry: g,
        registers,
        finished: backup,
        phase: Phase::Running,
    }
}

// The record of a board that went back to the backup that starts the part.
pub fn opened(part: &[u8], g: Geometry, backup: Backup, registers: Registers) -> Controller
    requires { 8 * backup_words g ≤ length part.now }
    ensures { result ≡ opened_of g backup (registers_of registers (words part.now 0 8)) }
{
    let mut bytes = [0u8; 64];
    match registers {
        Registers::Saved => {
            copy_part(part, 0, &mut bytes);
            started(g, backup, bytes)
        }
        // whatever the register words hold
        Registers::Absent => started(g, backup, bytes),
    }
}

// A refused recovery says that there are no registers.
pub fn refused_recovery(number: Number, controller: Controller) -> Recovery
    ensures { result ≡ refused_recovery number controller }
{
    Recovery {
        answer: refused(number, controller),
        registers: Registers::Absent,
    }
}

// Goes back to the backup that starts the part, where its table is sound.
pub fn recover_from(
    part: &[u8],
    table: &mut [u64],
    controller: Controller,
    g: Geometry,
    backup: Backup,
    registers: Registers,
) -> Recovery
    requires { (g.blocks ≤ 4096) × (length table.old ≡ g.slots) × (8 * backup_words g ≤ length part.now) }
    ensures { Opens g backup registers controller part.now table.old table.new result }
{
    if !backup_sound(part, g) {
        return refused_recovery(Number::Backup, controller);
    }
    let started = opened(part, g, backup, registers);
    // last, next to the walk in which the C door copies the words on: so a compiler makes one copy of the two
    copy_table(part, table);
    Recovery {
        answer: reply(Number::Done, 0, started),
        registers,
    }
}
