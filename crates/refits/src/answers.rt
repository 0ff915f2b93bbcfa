// Whether a stopped call itself answers and leaves what it has to: number, words, record, table, CACHE and the words before the header (document 02, No. 6).
use crate::expected::list_words;
use crate::panel::{Call, Panel, SIZES};
use rules::{Answer, Backup, Controller, Number, Phase};

// Only a cut changes the record, to Off; a whole format starts a new one. The sizes are those given, which are a format's new ones.
fn record_after(call: Call, before: Controller, cut: bool) -> Controller {
    if cut {
        return Controller {
            geometry: SIZES,
            phase: Phase::Off,
            ..before
        };
    }
    match call {
        Call::Format(_) => Controller {
            geometry: SIZES,
            registers: [0u8; 64],
            finished: Backup::A,
            phase: Phase::Running,
        },
        _ => before,
    }
}

fn table_after(call: Call, before: [u64; 2], cut: bool) -> [u64; 2] {
    match call {
        Call::Format(_) if !cut => [0u64; 2],
        _ => before,
    }
}

// A move touches no word but the two of the header.
fn memory_right(call: Call, before: &Panel, found: &Panel) -> bool {
    match call {
        Call::Format(_) => true,
        _ => found.old_memory() == before.old_memory(),
    }
}

// A stop after p words: 20 CUT and the p words, or 0 and all of them.
fn number_right(answer: Answer, words: usize, p: usize) -> bool {
    if p < words {
        return answer.number == Number::Cut && answer.words == p;
    }
    answer.number == Number::Done && answer.words == words
}

pub fn answer_right(call: Call, before: &Panel, found: &Panel, answer: Answer, p: usize) -> bool {
    let words = list_words(call);
    let cut = p < words;
    number_right(answer, words, p)
        && found.controller == record_after(call, before.controller, cut)
        && found.table == table_after(call, before.table, cut)
        && found.cache == before.cache
        && memory_right(call, before, found)
}
