// Document 01's program `kit` reads a sheet from standard input and prints its types and what the search found, or the refusal. The text grows in one
// buffer, the types first.
#![tactic(auto)]

ghost use Rattle.std.specs.Prelude.{◌+◌, ◌*◌, ◌≤◌, length, take};
ghost use Rattle.spec.specs.Calls.{outcome, members_in};
ghost use Rattle.spec.specs.KitText.{types_lines, last_line, type_records, lent, work_words, work_floats, kit_text};
ghost use Rattle.text.specs.Growing.{Grown};
ghost use Rattle.text.specs.Cells.{types_from};

use spec::Refusal;
use text::counting;
use text::writing::Text;

// This is the longest input that is read as a sheet: "input past 8,192 bytes is refused 1".
const LONGEST: usize = 8192;

// This is the workspace that `kit` lends to both calls.
const WORDS: usize = 4096;

const FLOATS: usize = 2048;

// These are the outputs that it lends to the types call.
const ELEMENTS: usize = 256;

const TYPES: usize = 256;

// These are the outputs that it lends to the search.
const MATRICES: usize = 1024;

const ROWS: usize = 8192;

const MARKS: usize = 512;

// This is the longest text: the line that counts the types has at most 27 bytes, a type's 24, and the last line 91.
const LONGEST_TEXT: usize = 6262;

// Writes the lines of the n types that the table begins with. Cells have 16 bits, so the buffer has room for these lines and for the last one too.
fn put_types(text: &mut Text, table: &[u16], n: usize)
    requires { (4 * n ≤ length table.now) × (4 * n ≤ type_records) × (text.old.end + 6262 ≤ length text.old.out.now) }
    ensures { Grown text.old (types_lines (types_from (take (4 * n) table.now))) text.new × (text.new.end + 91 ≤ length text.new.out.now) }
{
    text.put_element_types(table, n);
}

// Writes the last line, behind the types: what the search found, or its refusal.
fn last_line(sheet: &[u8], text: &mut Text)
    requires { text.old.end + 91 ≤ length text.old.out.now }
    ensures { Grown text.old (last_line (outcome (members_in sheet.now work_words work_floats) lent)) text.new }
{
    let mut words = [0u32; WORDS];
    let mut floats = [0.0; FLOATS];
    let mut matrices = [0.0; MATRICES];
    let mut rows = [0u16; ROWS];
    let mut marks = [0u8; MARKS];
    let answer = search::search(
        sheet,
        &mut words,
        &mut floats,
        &mut matrices,
        &mut rows,
        &mut marks,
    );
    match answer {
        Ok(n) => {
            let d = sheet::dimension(sheet);
            let confirmed = counting::confirmed(&marks, n);
            let rotations = counting::rotations(&matrices, d, n);
            text.put_members(n, confirmed, rotations);
        }
        Err(refused) => text.put_refused(refused.why),
    }
}

// Writes the whole text.
fn kit_text(sheet: &[u8], text: &mut Text)
    requires { text.old.end + 6262 ≤ length text.old.out.now }
    ensures { Grown text.old (kit_text sheet.now) text.new }
{
    if LONGEST < sheet.len() {
        text.put_refused(Refusal::CutSheet);
        return;
    }
    let mut words = [0u32; WORDS];
    let mut floats = [0.0; FLOATS];
    let mut of = [0u16; ELEMENTS];
    let mut table = [0u16; 4 * TYPES];
    let answer = types::element_types(sheet, &mut words, &mut floats, &mut of, &mut table);
    match answer {
        Ok(n) => {
            put_types(text, &table, n);
            last_line(sheet, text);
        }
        Err(refused) => text.put_refused(refused.why),
    }
}

fn main() {
    let mut bytes = [0u8; LONGEST + 1];
    let got = io::read_full(0, &mut bytes);
    let mut out = [0u8; LONGEST_TEXT];
    let mut text = Text {
        out: &mut out,
        end: 0,
    };
    kit_text(&bytes[..got], &mut text);
    io::write_all(1, text.bytes());
}
