// The table of cases. A line with a call (call.rt) has an equals sign and what is expected, which this program leaves alone. The other lines are
// printed as they are: a label behind `#`; an empty line; `word place number`, which changes four bytes of the image; `digest place`, which gives
// the entry there the digest of its requests as they stand; `zero`, which clears the image; `keep` and `undo`, which keep a copy of it and bring
// it back; and `give length`, from which on so many of its bytes are lent.
use crate::answer;
use crate::call::{Line, Word};
use cases::line::put_as_is;
use cases::table::Table;
use forms::image::Image;
use std::io;
use text::part::front;

fn changed(table: &mut Table<{ Image::LEN }>, line: Line) {
    let [at, number, ..] = line.figures;
    match line.word {
        Word::Change(change) => table.change(change, at, number),
        Word::Zero => table.image.fill(0),
        _ => (),
    }
}

pub(crate) fn row(
    rt: &impl Print,
    table: &mut Table<{ Image::LEN }>,
    text: &[u8],
) -> io::Result<()> {
    if text.contains(&b'=') {
        return answer::print(rt, text, table.lent, &mut table.image);
    }
    let mut line = [0u8; answer::LINE_ROOM];
    let end = put_as_is(&mut line, text);
    rt.write_all(front(&line, end))?;
    changed(table, Line::of(text));
    Ok(())
}
