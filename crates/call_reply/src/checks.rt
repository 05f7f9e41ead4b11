// The refusals that a client's calls share.
ghost use Rattle.std.specs.Prelude.{◌≡◌, ◌<◌, IfOk, [], ◌∷◌, eqb, leb, not, true};
ghost use Rattle.block.specs.Answers.{first_of, refuse};
ghost use Rattle.call_reply.specs.Faults.{number_in};

use super::faults::Fault;

// A transaction of no row is not open, and one that is asked or sent is not active.
#[tactic(auto, using(std::proofs::lemmas::Bool::Decides::nat_tests), unfolding(block::specs::Answers::first_of))]
pub fn check_active(at: usize, stage: u32) -> Result<(), Fault>
    ensures number { number_in result ≡ first_of (refuse 3 (leb 6 at) ∷ refuse 4 (not (eqb stage 0)) ∷ []) }
    ensures passed { IfOk result (λ _. (at < 6) × (stage ≡ 0)) }
{
    if 6 <= at {
        Err(Fault::NotOpen)
    } else if stage != 0 {
        Err(Fault::NotActive)
    } else {
        Ok(())
    }
}

// A call with an item, by an active transaction; `fits` where what it is lent has its lengths.
#[tactic(auto, using(std::proofs::lemmas::Bool::Decides::nat_tests), unfolding(block::specs::Answers::first_of))]
pub fn check_item(fits: bool, item: u32, at: usize, stage: u32) -> Result<(), Fault>
    ensures number { number_in result ≡ first_of (refuse 1 (not fits) ∷ refuse 2 (leb 128 item) ∷ refuse 3 (leb 6 at) ∷ refuse 4 (not (eqb stage 0)) ∷ []) }
    ensures passed { IfOk result (λ _. (fits ≡ true) × (item < 128) × (at < 6) × (stage ≡ 0)) }
{
    if !fits {
        Err(Fault::WrongLength)
    } else if 128 <= item {
        Err(Fault::OutOfRange)
    } else {
        check_active(at, stage)
    }
}
