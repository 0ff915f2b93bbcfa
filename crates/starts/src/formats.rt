// The words of a format, and the record and the table that it leaves (document 01, Checkpoints).
ghost use Rattle.std.specs.Prelude.{◌≡◌, [], ◌∷◌, ℕ, ◌+◌, ◌*◌, ◌≤◌, length, replicate};
ghost use Rattle.words.specs.Words.{Lays, fill_to, numbers_to};
ghost use Rattle.rules.specs.Geometry.{mark_start, memory_words};
ghost use Rattle.rules.specs.Starts.{format_list};
ghost use Rattle.starts.specs.Records.{cut_short_of};

use rules::{Backup, Controller, Geometry, Phase};
use words::{fill_words, lay_number};

// The mark twice, HOME, and backup A: 8N + B + 10 words.
pub fn format_words(g: Geometry) -> usize
    ensures { (fill : ℕ) → result ≡ length (format_list g fill) }
{
    g.home_words() + g.backup_words() + 2
}

pub fn lay_mark(memory: &mut [u8], g: Geometry, mark: u64, p: usize) -> usize
    requires { 8 * memory_words g ≤ length memory.old }
    ensures { Lays p (numbers_to (mark_start g) (mark ∷ [])) memory.old memory.new result }
{
    let start = 8 * g.mark_start();
    lay_number(&mut memory[start..], 0, mark, p)
}

// The count is the list's, `fill_to place count`.
pub fn lay_fill(memory: &mut [u8], place: usize, count: usize, fill: u8, p: usize) -> usize
    requires { 8 * (place + count) ≤ length memory.old }
    ensures { Lays p (fill_to place count fill) memory.old memory.new result }
{
    fill_words(memory, place, count, fill, p)
}

pub fn lay_format(memory: &mut [u8], g: Geometry, fill: u8, p: usize) -> usize
    requires { 8 * memory_words g ≤ length memory.old }
    ensures { Lays p (format_list g fill) memory.old memory.new result }
{
    let home = g.home_start();
    let home_words = g.home_words();
    let backup = g.backup_start(Backup::A);
    let backup_words = g.backup_words();
    // until the last word no backup is finished
    let unmarked = lay_mark(memory, g, 0, p);
    let left1 = p.saturating_sub(unmarked);
    let filled = lay_fill(memory, home, home_words, fill, left1);
    let left2 = left1.saturating_sub(filled);
    let cleared = lay_fill(memory, backup, backup_words, 0, left2);
    let left3 = left2.saturating_sub(cleared);
    let marked = lay_mark(memory, g, 3, left3);
    unmarked + (filled + (cleared + marked))
}

pub fn clear_table(table: &mut [u64])
    ensures { table.new ≡ replicate (length table.old) 0 }
{
    table.fill(0);
}

// A cut format records the new sizes.
pub fn cut_short(controller: Controller, sizes: Geometry) -> Controller
    ensures { result ≡ cut_short_of controller sizes }
{
    Controller {
        geometry: sizes,
        phase: Phase::Off,
        ..controller
    }
}
