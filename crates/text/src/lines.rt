// This module has the lines that `kit` prints.
ghost use Rattle.std.specs.Prelude.{◌*◌, ◌≤◌, length, take};
ghost use Rattle.spec.specs.KitText.{refused_line, type_line, types_lines};
ghost use Rattle.text.specs.Cells.{element_type_of, types_from, lines_to};
ghost use Rattle.text.specs.Members.{members_text};

use crate::writing::Text;
use spec::Refusal;

// This is a type as its four cells of a table have it.
#[derive(Clone, Copy)]
pub struct TypeRecord {
    pub rank: usize,
    pub number: usize,
    pub example: usize,
    pub count: usize,
}

impl Text<'_> {
    ghost use Rattle.text.specs.Growing.{HasRoom, Grown};

    // Puts a refusal's line: "A refusal prints `refused` and its number".
    pub fn put_refused(&mut self, why: Refusal)
        requires { HasRoom self.old (refused_line why) }
        ensures { Grown self.old (refused_line why) self.new }
    {
        self.put_labelled(b"refused ", why.number() as usize);
        self.put_bytes(b"\n");
    }

    // Puts a type's line: "rank, type, example, count".
    pub fn put_element_type(&mut self, of: TypeRecord)
        requires { HasRoom self.old (type_line (element_type_of of)) }
        ensures { Grown self.old (type_line (element_type_of of)) self.new }
    {
        self.put_decimal(of.rank);
        self.put_labelled(b" ", of.number);
        self.put_labelled(b" ", of.example);
        self.put_labelled(b" ", of.count);
        self.put_bytes(b"\n");
    }

    // Puts the lines of the first n types of a table. Chunks of four cells would be no plainer, since each cell of a chunk is still read by its place.
    fn put_type_lines(&mut self, table: &[u16], n: usize)
        requires { (4 * n ≤ length table.now) × HasRoom self.old (lines_to table.now n) }
        ensures { Grown self.old (lines_to table.now n) self.new }
    {
        for i in 0..n {
            let p = 4 * i;
            let rank = usize::from(table[p]);
            let number = usize::from(table[p + 1]);
            let example = usize::from(table[p + 2]);
            let count = usize::from(table[p + 3]);
            self.put_element_type(TypeRecord {
                rank,
                number,
                example,
                count,
            });
        }
    }

    // Puts all lines of the types. "The first line counts types", and then comes a line for each of the n types whose cells the table begins with.
    pub fn put_element_types(&mut self, table: &[u16], n: usize)
        requires { (4 * n ≤ length table.now) × HasRoom self.old (types_lines (types_from (take (4 * n) table.now))) }
        ensures { Grown self.old (types_lines (types_from (take (4 * n) table.now))) self.new }
    {
        self.put_labelled(b"types ", n);
        self.put_bytes(b"\n");
        self.put_type_lines(table, n);
    }

    // Puts the last line, which counts "the members, those marked 1, and those of determinant above 0".
    pub fn put_members(&mut self, n: usize, confirmed: usize, rotations: usize)
        requires { HasRoom self.old (members_text n confirmed rotations) }
        ensures { Grown self.old (members_text n confirmed rotations) self.new }
    {
        self.put_labelled(b"members ", n);
        self.put_labelled(b" confirmed ", confirmed);
        self.put_labelled(b" rotations ", rotations);
        self.put_bytes(b"\n");
    }
}
