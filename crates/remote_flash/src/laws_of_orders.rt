//! What is true of orders and answers, whatever the code does.
ghost use Rattle.std.specs.Prelude.{◌≡◌, List, All, Err, true, false};
ghost use Rattle.flash_model.specs.declared.flash.DevFault.TheVariants.{PowerCut};
ghost use Rattle.remote_flash.specs.Streams.{Streams};
ghost use Rattle.remote_flash.specs.Attempts.{Attempt, TellsAll, ArePassed};

/// Programs and erases in turn give their orders in turn, and each that is not cut has its answer. From
/// the first that is cut on nothing passes, and all are cut.
pub fn order_laws()
    ensures passed { (old new : Streams) (attempts : List Attempt) → old.lost ≡ false → TellsAll old attempts new → ArePassed old attempts new }
    ensures same { (old new : Streams) (attempts : List Attempt) → old.lost ≡ true → TellsAll old attempts new → new ≡ old }
    ensures cut { (old new : Streams) (attempts : List Attempt) → old.lost ≡ true → TellsAll old attempts new → All (λ attempt. attempt.result ≡ Err PowerCut) attempts }
{}
