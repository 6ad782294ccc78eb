// The draws of records: their words, and the function that makes them.
#![tactic(auto)]

ghost use Rattle.std.specs.Prelude.{◌≡◌, length};
ghost use Rattle.list_records.specs.Encoding.{source_of, draw_of_words};
ghost use Rattle.list_records.specs.Perform.{DrewIn};
ghost use Rattle.list_draws.specs.Words.{draw_words};

use context::{Context, DrawReply};
use list_records::Record;

// The words that all draws have; `room` is held within the output.
#[derive(Clone, Copy)]
struct DrawWords {
    mode: u32,
    stages: u32,
    base: u32,
    room: usize,
}

fn draw_words(w: &[u32], len: usize) -> DrawWords
    ensures { result ≡ draw_words w.now len }
{
    DrawWords {
        mode: list_words::word_at(w, 0),
        stages: list_words::word_at(w, 1),
        base: list_words::word_at(w, 4),
        room: list_words::long_at(w, 2).min(len),
    }
}

// Makes the draw of a record, with the first f32 of the output, as many as it asks for.
pub fn make_draw<'a>(c: Context, store: &'a [u8], record: Record<'a>, out: &mut [f32]) -> DrawReply
    ensures { DrewIn
        (draw_of_words record.entry.bytes.now (length out.old) (source_of record.entry.code record.entry.words.now) record.entry.words.now)
        c store.now out.old result out.new }
{
    let w = record.words;
    let d = draw_words(w, out.len());
    let guest = list_words::part_at(record.bytes, w, 5);
    let part = &mut out[..d.room];
    match record.code {
        0x60 => {
            let indices = list_words::words_from(w, 9);
            gles_draws::draw_elements(c, store, d.base, guest, d.mode, indices, d.stages, part)
        }
        0x61 => {
            let first = record.word(9);
            let count = record.word(10);
            gles_draws::draw_arrays(
                c, store, d.base, guest, d.mode, first, count, d.stages, part,
            )
        }
        _ => {
            let count = record.word(9);
            let ty = record.word(10);
            let pointer = record.word(11);
            gles_draws::draw_elements_from_guest(
                c, store, d.base, guest, d.mode, count, ty, pointer, d.stages, part,
            )
        }
    }
}
