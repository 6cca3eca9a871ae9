// Which statements are notices to a market.
ghost use Rattle.std.specs.Prelude.{◌≡◌, Option};
ghost use Rattle.script.specs.Lines.{Spoken, spoken};
ghost use Rattle.console.specs.Notices.{board_notice, book_notice};

use market::board::BoardNotice;
use market::book::BookNotice;
use script::line::Statement;

// A kind of notice that a text can state. Each kind is a case of its own of the statement.
pub trait Stated: Sized {
    ghost stated_by: { Spoken → Option Self };

    // The notice that the statement is, if it is one of this kind.
    fn stated(statement: &Statement) -> Option<Self>
        ensures { result ≡ stated_by (spoken statement.now) };
}

impl Stated for BoardNotice {
    ghost stated_by = { board_notice };

    fn stated(statement: &Statement) -> Option<BoardNotice> {
        match statement {
            Statement::Board(notice) => Some(*notice),
            _ => None,
        }
    }
}

impl Stated for BookNotice {
    ghost stated_by = { book_notice };

    fn stated(statement: &Statement) -> Option<BookNotice> {
        match statement {
            Statement::Book(notice) => Some(*notice),
            _ => None,
        }
    }
}
