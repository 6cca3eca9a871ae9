// The headings of a text: the market, its band and the share rule, each stated at most once.
ghost use Rattle.std.specs.Prelude.{◌≡◌, cond, is_some, Ok, Err};
ghost use Rattle.script.specs.Lines.{spoken};
ghost use Rattle.console.specs.declared.setup.NotTaken.TheVariants.{Again, Refused};
ghost use Rattle.console.specs.Headings.{Heads, heading_of, heading_said, unstated};

use market::band::Width;
use market::fault::Fault;
use script::line::{MarketKind, ShareKind, Statement};
use terms::refusal::Refusal;

// What was stated so far.
#[derive(Clone, Copy, Default)]
pub struct Setup {
    pub market: Option<MarketKind>,
    pub band: Option<Width>,
    pub share: Option<ShareKind>,
}

// Why a statement is not taken as a heading.
#[derive(Clone, Copy)]
pub enum NotTaken {
    // stated before
    Again,
    // a band of a width out of range
    Refused(Refusal<Fault>),
    // no heading, but a call
    Call,
}

impl From<Refusal<Fault>> for NotTaken {
    ghost from_gives = { λ refusal r. r ≡ Refused refusal };

    fn from(refusal: Refusal<Fault>) -> NotTaken {
        NotTaken::Refused(refusal)
    }
}

// Whether nothing is stated yet.
fn unstated<T>(stated: &Option<T>) -> Result<(), NotTaken>
    ensures { result ≡ cond (is_some stated.now) (Err Again) (Ok tt) }
{
    match stated {
        Some(_) => Err(NotTaken::Again),
        None => Ok(()),
    }
}

impl Setup {
    pub fn new() -> Setup
        ensures { result ≡ unstated }
    {
        Setup::default()
    }

    // Takes a heading. Nothing changes unless it is taken.
    pub fn heading(&mut self, statement: &Statement) -> Result<(), NotTaken>
        ensures { Heads (heading_of self.old (spoken statement.now)) (heading_said result) self.new }
    {
        match statement {
            Statement::Market(kind) => {
                unstated(&self.market)?;
                self.market = Some(*kind);
                Ok(())
            }
            Statement::Share(kind) => {
                unstated(&self.share)?;
                self.share = Some(*kind);
                Ok(())
            }
            Statement::Band(cents) => {
                unstated(&self.band)?;
                self.band = Some(Width::new(*cents)?);
                Ok(())
            }
            _ => Err(NotTaken::Call),
        }
    }
}
