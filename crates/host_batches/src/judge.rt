// The desk's answer to a proof that was written, with every verdict yes.
use crate::call::{Line, Word};
use cases::call::Call;
use console::judge::judge;
use desk_table::answer::Figures;
use forms::entry::Head;
use forms::log::log_end;
use forms::nonce::{LEN, Nonce};
use forms::number::get_u32;
use forms::request::Request;
use forms::requests::find;
use forms::terms::CounterId;
use validity::proof::{Kind, Proof};

// The nonce of the counter's request in the last entry of a proof of kind 2.
fn last_nonce(proof: &[u8], id: CounterId) -> Nonce {
    let count = get_u32(proof, 20);
    if count == 0 {
        return [0u8; LEN];
    }
    let log = Proof::new(Kind::Increment, count).log_offset();
    let at = log_end(proof, log, count - 1).offset;
    if proof.len() <= at {
        return [0u8; LEN];
    }
    let index = find(proof, at + Head::LEN, Head::count_at(proof, at), id);
    Request::nonce_at(proof, at + Head::LEN + Request::LEN * (index as usize))
}

// Of `prove byte length id room`, and of `last id t room`: of a proof of so many bytes.
pub(crate) fn answer(asked: Line, len: u32, proof: &[u8]) -> Figures {
    let [first, _, third, ..] = asked.figures;
    if let Word::Call(Call::Prove) = asked.word {
        let nonce = [(first % 256) as u8; LEN];
        Figures::from(judge(Kind::Read, len, proof, CounterId(third), &nonce))
    } else {
        let id = CounterId(first);
        let nonce = last_nonce(proof, id);
        Figures::from(judge(Kind::Increment, len, proof, id, &nonce))
    }
}
