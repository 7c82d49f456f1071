//! Two stores that serve the same rounds.

ghost use Rattle.raft_voter_world.specs.LawsAlike.{StoresAnswerAlike, StoresAnswerAsModels, StoresAnswerTakenAsModels};

use raft_voter::RoundService;

/// Suppose two stores serve the same voters and reply to the same rounds, and both refuse exactly the requests out of
/// range. Then their replies are the same, and they serve the same voters afterwards. The stores may be of different
/// types.
pub fn stores_answer_alike<R, S: RoundService<R>, T: RoundService<R>>()
    ensures { StoresAnswerAlike S.service T.service }
{}

/// A store that can refuse only the requests out of range, and always refuses these, is a model of any other store. If
/// the other store refuses exactly these too, it gives the model's replies to the same rounds. Both serve the same
/// voters afterwards.
pub fn stores_answer_as_models<R, S: RoundService<R>, T: RoundService<R>>()
    ensures { StoresAnswerAsModels S.service T.service }
{}

/// The same, whatever the other store refused. If the model gets just the requests that the store took, its replies are
/// the store's replies to them. Both serve the same voters afterwards.
pub fn stores_answer_taken_as_models<R, S: RoundService<R>, T: RoundService<R>>()
    ensures { StoresAnswerTakenAsModels S.service T.service }
{}
