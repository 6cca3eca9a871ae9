// One turn of a sitting: a statement is made a call of the session, and answered.
ghost use Rattle.std.specs.Option.{option_map};
ghost use Rattle.terms.specs.Refusals.{said};
ghost use Rattle.script.specs.Lines.{spoken};
ghost use Rattle.session.specs.Views.{view};
ghost use Rattle.console.specs.Turns.{Responds, turn_of};

use crate::notices::Stated;
use market::fault::Fault;
use market::interface::Market;
use script::answer::Answer;
use script::line::Statement;
use session::state::Session;
use terms::refusal::Refusal;

// Answers a statement; none if it is no call of a session over this market.
pub fn respond<M: Market<Fault = Fault>, S>(
    session: &mut Session<M, S>,
    statement: &Statement,
) -> Option<Result<Answer, Refusal<Fault>>>
where
    M::Notice: Stated + Drop,
    ensures { Responds (turn_of M.Market.top M.Market.fault M.Market.after M.Notice.Stated.stated_by (view M.Market.model session.old) (spoken statement.now)) (view M.Market.model session.old) (option_map said result) (view M.Market.model session.new) }
{
    match statement {
        Statement::List(legs) => Some(session.list(legs).map(Answer::Number)),
        Statement::Open(period) => Some(session.open(*period).map(Answer::Plain)),
        Statement::Read(strategy) => Some(session.read(*strategy).map(Answer::Reading)),
        Statement::Board(_) | Statement::Book(_) => {
            let notice = M::Notice::stated(statement)?;
            Some(session.notice(&notice).map(Answer::Placing))
        }
        Statement::Market(_) | Statement::Band(_) | Statement::Share(_) => None,
    }
}
