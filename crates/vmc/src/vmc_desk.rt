// The desk for the program at the dock.
ghost use Rattle.std.specs.Prelude.{◌≡◌};
ghost use Rattle.forms.specs.Terms.{counter_id};
ghost use Rattle.desk_table.specs.Answer.{figures};
ghost use Rattle.desk_table.specs.Desk.{verified};

use desk::verify::verify;
use desk_table::answer::Figures;
use forms::terms::CounterId;

// The five figures of the desk's answer, with no buffer written.
pub fn vmc_desk_verify(proof: &[u8], verdicts: &[u8], id: u32, nonce: &[u8]) -> Figures
    ensures { result ≡ figures (verified proof.now verdicts.now (counter_id id) nonce.now) }
{
    verify(proof, verdicts, CounterId(id), nonce).into()
}
