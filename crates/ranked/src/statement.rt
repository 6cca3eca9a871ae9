// The statement of fills: by user, price and number, in one list.
ghost use Rattle.std.specs.Prelude.{◌≡◌, ◌++◌, length, take, drop, is_ok, IfOk, if◌then◌else◌};
ghost use Rattle.ranked.specs.Fills.{fill_before};
ghost use Rattle.terms.specs.Refusals.{said};
ghost use Rattle.ranked.specs.Ranks.{Ranking, listed, room_for, room_for_said};

use crate::fill::Fill;
use crate::list::put_all_in_order;
use std::convert::Infallible;
use terms::refusal::Refusal;

// Writes the fills given into the list, all of them, or none if the list is shorter, and answers
// their count. What the list holds behind them stays.
pub fn statement(given: &[Fill], list: &mut [Fill]) -> Result<usize, Refusal<Infallible>>
    ensures answer { result ≡ room_for (length given.now) (length list.old) }
    ensures by_row { said result ≡ room_for_said (length given.now) (length list.old) }
    ensures after { list.new ≡ (if is_ok result then listed fill_before given.now ++ drop (length given.now) list.old else list.old) }
    ensures ranking { IfOk result (λ n. Ranking fill_before given.now (take n list.new)) }
{
    put_all_in_order(given, list)
}
