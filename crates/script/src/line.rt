// One statement, from the words of its line.
ghost use Rattle.std.specs.Prelude.{◌≡◌, IfOk, Some, vec_items};
ghost use Rattle.std.specs.Option.{option_map};
ghost use Rattle.script.specs.declared.word.Word.TheVariants.{Key};
ghost use Rattle.script.specs.Forms.{one_of, only_keyword};
ghost use Rattle.script.specs.Legs.{leg_of, legs_of, ratio_of, trade_side};
ghost use Rattle.script.specs.Lines.{Spoken, add_of, clear_of, first_of, listing, market_of, mark_of, only_number, plain_of, quoted_of, quote_of, quote_side, share_of, spoken, statement_of, withdraw_of, words_of};

use crate::keyword::Keyword;
use crate::word::Word;
use market::board::BoardNotice;
use market::book::BookNotice;
use market::quoted::Quoted;
use std::alloc::{AllocError, Global};
use terms::leg::Leg;
use terms::side::Side;

#[derive(Clone, Copy)]
pub enum MarketKind {
    Board,
    Book,
}

#[derive(Clone, Copy)]
pub enum ShareKind {
    ProRata,
    FirstCome,
}

// A heading of the text, a call of the session or a notice to its market.
#[derive(Drop)]
pub enum Statement {
    Market(MarketKind),
    Band(u32),
    Share(ShareKind),
    List(Vec<Leg>),
    Open(u32),
    Board(BoardNotice),
    Book(BookNotice),
    Read(u32),
}

impl Statement {
    // The word that it begins with.
    pub fn first_word(&self) -> Keyword
        ensures { first_of (words_of (spoken self.now)) ≡ Some (Key result) }
    {
        match self {
            Statement::Market(_) => Keyword::Market,
            Statement::Band(_) => Keyword::Band,
            Statement::Share(_) => Keyword::Share,
            Statement::List(_) => Keyword::List,
            Statement::Open(_) => Keyword::Open,
            Statement::Board(BoardNotice::Set(_)) => Keyword::Quote,
            Statement::Board(BoardNotice::Clear { .. }) => Keyword::Clear,
            Statement::Book(BookNotice::Add { .. }) => Keyword::Add,
            Statement::Book(BookNotice::Withdraw { .. }) => Keyword::Withdraw,
            Statement::Read(_) => Keyword::Read,
        }
    }
}

// What a keyword says where each of two says one thing.
fn one_of<T: Copy>(keyword: Keyword, first: (Keyword, T), second: (Keyword, T)) -> Option<T>
    ensures { result ≡ one_of keyword first second }
{
    if keyword == first.0 {
        Some(first.1)
    } else if keyword == second.0 {
        Some(second.1)
    } else {
        None
    }
}

fn only_keyword(words: &[Word]) -> Option<Keyword>
    ensures { result ≡ only_keyword words.now }
{
    match words {
        [Word::Key(keyword)] => Some(*keyword),
        _ => None,
    }
}

// What is left here, and in the three like it, is the table of two words.
fn market_kind(words: &[Word]) -> Option<MarketKind>
    ensures { result ≡ market_of words.now }
{
    one_of(
        only_keyword(words)?,
        (Keyword::Board, MarketKind::Board),
        (Keyword::Book, MarketKind::Book),
    )
}

fn share_kind(words: &[Word]) -> Option<ShareKind>
    ensures { result ≡ share_of words.now }
{
    one_of(
        only_keyword(words)?,
        (Keyword::ProRata, ShareKind::ProRata),
        (Keyword::FirstCome, ShareKind::FirstCome),
    )
}

// Apart from `only_keyword`: a pattern says which kind of word is meant, and a closure in its place
// would be longer than the pattern.
fn only_number(words: &[Word]) -> Option<u32>
    ensures { result ≡ only_number words.now }
{
    match words {
        [Word::Number(n)] => Some(*n),
        _ => None,
    }
}

fn quote_side(keyword: Keyword) -> Option<Side>
    ensures { result ≡ quote_side keyword }
{
    one_of(
        keyword,
        (Keyword::Bid, Side::Buy),
        (Keyword::Offer, Side::Sell),
    )
}

// Whether a customer's, at the end of a line.
fn customer_mark(words: &[Word]) -> Option<bool>
    ensures { result ≡ mark_of words.now }
{
    match words {
        [] => Some(false),
        [Word::Key(Keyword::Customer)] => Some(true),
        _ => None,
    }
}

fn quoted_words(words: &[Word]) -> Option<Quoted>
    ensures { result ≡ quoted_of words.now }
{
    let [
        Word::Number(component),
        Word::Key(side),
        Word::Number(price),
        rest @ ..,
    ] = words
    else {
        return None;
    };
    let side = quote_side(*side)?;
    let customer = customer_mark(rest)?;
    Some(Quoted {
        component: *component,
        side,
        price: *price,
        customer,
    })
}

fn quote(words: &[Word]) -> Option<BoardNotice>
    ensures { result ≡ quote_of words.now }
{
    Some(BoardNotice::Set(quoted_words(words)?))
}

fn clear(words: &[Word]) -> Option<BoardNotice>
    ensures { result ≡ clear_of words.now }
{
    let [Word::Number(component), Word::Key(side)] = words else {
        return None;
    };
    let side = quote_side(*side)?;
    Some(BoardNotice::Clear {
        component: *component,
        side,
    })
}

fn add(words: &[Word]) -> Option<BookNotice>
    ensures { result ≡ add_of words.now }
{
    let [Word::Number(number), rest @ ..] = words else {
        return None;
    };
    let quoted = quoted_words(rest)?;
    Some(BookNotice::Add {
        number: *number,
        quoted,
    })
}

fn withdraw(words: &[Word]) -> Option<BookNotice>
    ensures { result ≡ withdraw_of words.now }
{
    let number = only_number(words)?;
    Some(BookNotice::Withdraw { number })
}

// A statement with no list in it, from its first word and the words after it.
fn plain_statement(keyword: Keyword, words: &[Word]) -> Option<Statement>
    ensures { option_map spoken result ≡ plain_of keyword words.now }
{
    match keyword {
        Keyword::Market => Some(Statement::Market(market_kind(words)?)),
        Keyword::Band => Some(Statement::Band(only_number(words)?)),
        Keyword::Share => Some(Statement::Share(share_kind(words)?)),
        Keyword::Open => Some(Statement::Open(only_number(words)?)),
        Keyword::Quote => Some(Statement::Board(quote(words)?)),
        Keyword::Clear => Some(Statement::Board(clear(words)?)),
        Keyword::Add => Some(Statement::Book(add(words)?)),
        Keyword::Withdraw => Some(Statement::Book(withdraw(words)?)),
        Keyword::Read => Some(Statement::Read(only_number(words)?)),
        _ => None,
    }
}

fn trade_side(keyword: Keyword) -> Option<Side>
    ensures { result ≡ trade_side keyword }
{
    one_of(
        keyword,
        (Keyword::Buy, Side::Buy),
        (Keyword::Sell, Side::Sell),
    )
}

// The ratio of a leg, 1 if not said.
fn ratio(words: &[Word]) -> Option<u32>
    ensures { result ≡ ratio_of words.now }
{
    match words {
        [] => Some(1),
        [Word::Key(Keyword::Ratio), Word::Number(n)] => Some(*n),
        _ => None,
    }
}

fn one_leg(words: &[Word]) -> Option<Leg>
    ensures { result ≡ leg_of words.now }
{
    let [Word::Key(side), Word::Number(component), rest @ ..] = words else {
        return None;
    };
    let side = trade_side(*side)?;
    let ratio = ratio(rest)?;
    Some(Leg {
        component: *component,
        side,
        ratio,
    })
}

// The legs that stand between commas. The heap is passed wherever memory may be wanted.
fn legs(heap: Global, words: &[Word]) -> Result<Option<Vec<Leg>>, AllocError>
    ensures { IfOk result (λ o. option_map vec_items o ≡ legs_of words.now) }
{
    let mut legs = Vec::new(heap);
    // `split` gives one piece of no words.
    if words.is_empty() {
        return Ok(Some(legs));
    }
    for piece in words.split(|word| matches!(word, Word::Comma)) {
        let Some(leg) = one_leg(piece) else {
            return Ok(None);
        };
        legs.push(leg)?;
    }
    Ok(Some(legs))
}

fn list_statement(heap: Global, words: &[Word]) -> Result<Option<Statement>, AllocError>
    ensures { IfOk result (λ o. option_map spoken o ≡ option_map listing (legs_of words.now)) }
{
    Ok(legs(heap, words)?.map(Statement::List))
}

fn parsed(heap: Global, words: &[Word]) -> Result<Option<Statement>, AllocError>
    ensures { IfOk result (λ o. option_map spoken o ≡ statement_of words.now) }
{
    match words {
        [Word::Key(Keyword::List), rest @ ..] => list_statement(heap, rest),
        [Word::Key(keyword), rest @ ..] => Ok(plain_statement(*keyword, rest)),
        _ => Ok(None),
    }
}

// The statement that the words of a line make; none if they make none.
pub fn statement_of(heap: Global, words: &[Word]) -> Result<Option<Statement>, AllocError>
    ensures value { IfOk result (λ o. option_map spoken o ≡ statement_of words.now) }
    ensures speaks { (s : Spoken) → words.now ≡ words_of s → IfOk result (λ o. option_map spoken o ≡ Some s) }
{
    parsed(heap, words)
}
