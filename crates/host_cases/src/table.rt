// The table of cases. A line with a call (call.rt) has an equals sign and what is expected, worked out by hand, which this program leaves
// alone; `each` stands for every call but start. The other lines are printed as they are: a label behind `#`; an empty line; `byte place
// number` and `word place number`, which change one and four bytes of the image; `digest place`, which gives the entry there the digest of its
// requests as they stand; `keep` and `undo`, which keep a copy of the image and bring it back; and `give length`, from which on so many bytes
// of the image's buffer are lent.
use crate::call::{Line, Word};
use crate::{IMAGE_ROOM, answer};
use cases::line::put_as_is;
use cases::table::Table;
use forms::bytes::put;
use std::io;
use text::part::front;

fn changed(table: &mut Table<IMAGE_ROOM>, line: Line) {
    let [at, number, ..] = line.figures;
    match line.word {
        Word::Change(change) => table.change(change, at, number),
        Word::Byte => put(&mut table.image, at as usize, &[(number % 256) as u8]),
        _ => (),
    }
}

pub(crate) fn row(rt: &impl Print, table: &mut Table<IMAGE_ROOM>, text: &[u8]) -> io::Result<()> {
    let line = Line::of(text);
    match line.word {
        Word::Each => answer::print_each(rt, table.lent, &mut table.image),
        Word::Change(_) | Word::Byte | Word::Other => {
            let mut line_as_is = [0u8; answer::LINE_ROOM];
            let end = put_as_is(&mut line_as_is, text);
            rt.write_all(front(&line_as_is, end))?;
            changed(table, line);
            Ok(())
        }
        _ => answer::print(rt, text, table.lent, &mut table.image),
    }
}
