// The text of a run's result: a line for each tablet.
ghost use Rattle.std.specs.Prelude.{◌≡◌, ◌+◌, ◌≤◌, length};
ghost use Rattle.forms.specs.Bytes.{overwrite};
ghost use Rattle.tablets.specs.Rounds.{tablets_of};
ghost use Rattle.bench.specs.Result.{max_result, max_tablet_line, result_text, tablet_line};

use forms::bytes::put;
use tablets::rounds::Fleet;
use tablets::tablet::{MAX_TABLETS, Tablet};
use text::line::{put_figure, put_numeral};

// The most bytes of a result: for each tablet three numbers of ten digits, two spaces and a newline.
pub const MAX_RESULT: usize = 33 * MAX_TABLETS;

// Stores a tablet's line from a place on, which has room for it, and answers the place behind it.
fn put_tablet(text: &mut [u8], at: usize, tablet: Tablet) -> usize
    requires { at + max_tablet_line ≤ length text.old }
    ensures value { result ≡ at + length (tablet_line tablet) }
    ensures text_after { text.new ≡ overwrite text.old at (tablet_line tablet) }
{
    let raises_end = put_numeral(text, at, tablet.raises);
    let stale_end = put_figure(text, raises_end, tablet.stale);
    let full_end = put_figure(text, stale_end, tablet.full);
    put(text, full_end, b"\n");
    full_end + 1
}

// Stores the lines of all tablets, by number, from a place on, which has room for them, and answers the place behind them.
pub(crate) fn put_result(text: &mut [u8], at: usize, fleet: Fleet) -> usize
    requires { at + max_result ≤ length text.old }
    ensures value { result ≡ at + length (result_text (tablets_of fleet)) }
    ensures text_after { text.new ≡ overwrite text.old at (result_text (tablets_of fleet)) }
    ensures short { result ≤ at + max_result }
{
    let mut end = at;
    for tablet in fleet.as_slice() {
        end = put_tablet(text, end, *tablet);
    }
    end
}
