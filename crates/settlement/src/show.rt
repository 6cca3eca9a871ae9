// Shows lists in true prices: for a selling auction what a buyer would see is negated.
ghost use Rattle.std.specs.Prelude.{◌≡◌, map};
ghost use Rattle.std.specs.List.{AllByRecursion};
ghost use Rattle.terms.specs.declared.side.Side.{Side as Way};
ghost use Rattle.allocation.specs.Shown.{shown_fill, shown_item};
ghost use Rattle.contra.specs.Turns.{ItemTurns};
ghost use Rattle.settlement.specs.Shows.{FillTurns};

use auction::agency::as_buyer;
use ranked::contra::ContraItem;
use ranked::fill::Fill;
use terms::side::Side;

// A record with prices.
pub trait Shown: Sized {
    // its prices fit when they are negated for this side: asked, for it holds of a record beside a side
    ghost turns: { Way → Self → Type 0 };

    ghost shown: { Way → Self → Self };

    fn shown(&self, side: Side) -> Self
        requires { turns side self.now }
        ensures { result ≡ shown side self.now };
}

impl Shown for ContraItem {
    ghost turns = { ItemTurns };

    ghost shown = { shown_item };

    fn shown(&self, side: Side) -> ContraItem {
        ContraItem {
            price: as_buyer(side, self.price) as i32,
            level: as_buyer(side, self.level) as i32,
            ..*self
        }
    }
}

impl Shown for Fill {
    ghost turns = { FillTurns };

    ghost shown = { shown_fill };

    fn shown(&self, side: Side) -> Fill {
        Fill {
            price: as_buyer(side, self.price) as i32,
            ..*self
        }
    }
}

// Shows every record in true prices.
pub(crate) fn show_all<T: Shown + Copy>(side: Side, records: &mut [T])
    requires { AllByRecursion (T.Shown.turns side) records.old }
    ensures { records.new ≡ map (T.Shown.shown side) records.old }
{
    for record in records.iter_mut() {
        *record = record.shown(side);
    }
}
