// The keywords of the script, each with its spelling.
ghost use Rattle.std.specs.Prelude.{◌≡◌, Some};
ghost use Rattle.std.specs.Str.{bytes_eq};
ghost use Rattle.script.specs.declared.keyword.Keyword.{Keyword};
ghost use Rattle.script.specs.Keywords.{keyword_in, keyword_of, keywords, spelling};

use std::fmt;

#[derive(Clone, Copy, PartialEq, Eq, Debug)]
pub enum Keyword {
    Market,
    Board,
    Book,
    Band,
    Share,
    ProRata,
    FirstCome,
    List,
    Buy,
    Sell,
    Ratio,
    Open,
    Quote,
    Bid,
    Offer,
    Customer,
    Clear,
    Add,
    Withdraw,
    Order,
    Strategy,
    At,
    Cancel,
    Pair,
    Against,
    Stop,
    Single,
    Last,
    Match,
    To,
    Respond,
    Auction,
    Clock,
    Halt,
    Component,
    Close,
    Settle,
    Read,
    Statement,
}

// An enum does not list its values.
const ALL: [Keyword; 39] = [
    Keyword::Market,
    Keyword::Board,
    Keyword::Book,
    Keyword::Band,
    Keyword::Share,
    Keyword::ProRata,
    Keyword::FirstCome,
    Keyword::List,
    Keyword::Buy,
    Keyword::Sell,
    Keyword::Ratio,
    Keyword::Open,
    Keyword::Quote,
    Keyword::Bid,
    Keyword::Offer,
    Keyword::Customer,
    Keyword::Clear,
    Keyword::Add,
    Keyword::Withdraw,
    Keyword::Order,
    Keyword::Strategy,
    Keyword::At,
    Keyword::Cancel,
    Keyword::Pair,
    Keyword::Against,
    Keyword::Stop,
    Keyword::Single,
    Keyword::Last,
    Keyword::Match,
    Keyword::To,
    Keyword::Respond,
    Keyword::Auction,
    Keyword::Clock,
    Keyword::Halt,
    Keyword::Component,
    Keyword::Close,
    Keyword::Settle,
    Keyword::Read,
    Keyword::Statement,
];

impl Keyword {
    // `Display` writes it too; what is read is compared with it.
    pub fn spelling(self) -> &'static str
        ensures { result.now ≡ spelling self }
    {
        match self {
            Keyword::Market => "market",
            Keyword::Board => "board",
            Keyword::Book => "book",
            Keyword::Band => "band",
            Keyword::Share => "share",
            Keyword::ProRata => "pro-rata",
            Keyword::FirstCome => "first-come",
            Keyword::List => "list",
            Keyword::Buy => "buy",
            Keyword::Sell => "sell",
            Keyword::Ratio => "ratio",
            Keyword::Open => "open",
            Keyword::Quote => "quote",
            Keyword::Bid => "bid",
            Keyword::Offer => "offer",
            Keyword::Customer => "customer",
            Keyword::Clear => "clear",
            Keyword::Add => "add",
            Keyword::Withdraw => "withdraw",
            Keyword::Order => "order",
            Keyword::Strategy => "strategy",
            Keyword::At => "at",
            Keyword::Cancel => "cancel",
            Keyword::Pair => "pair",
            Keyword::Against => "against",
            Keyword::Stop => "stop",
            Keyword::Single => "single",
            Keyword::Last => "last",
            Keyword::Match => "match",
            Keyword::To => "to",
            Keyword::Respond => "respond",
            Keyword::Auction => "auction",
            Keyword::Clock => "clock",
            Keyword::Halt => "halt",
            Keyword::Component => "component",
            Keyword::Close => "close",
            Keyword::Settle => "settle",
            Keyword::Read => "read",
            Keyword::Statement => "statement",
        }
    }

    fn is_spelled(self, bytes: &[u8]) -> bool
        ensures { result ≡ bytes_eq (spelling self) bytes.now }
    {
        self.spelling().as_bytes() == bytes
    }
}

impl fmt::Display for Keyword {
    ghost output = { λ k. Some (spelling k) };

    fn fmt<W: fmt::Write>(&self, f: &mut fmt::Formatter<W>) -> fmt::Result {
        f.write_str(self.spelling())
    }
}

// The first of these keywords that is spelled so.
fn spelled_among(some: &[Keyword], bytes: &[u8]) -> Option<Keyword>
    ensures { result ≡ keyword_in some.now bytes.now }
{
    some.iter()
        .find(|keyword| keyword.is_spelled(bytes))
        .copied()
}

fn all_keywords() -> &'static [Keyword]
    ensures { result.now ≡ keywords }
{
    &ALL
}

// The keyword that is spelled so, if any: there is nothing to tell of a spelling that is none.
pub fn keyword_of(bytes: &[u8]) -> Option<Keyword>
    ensures value { result ≡ keyword_of bytes.now }
    ensures inverse { (k : Keyword) → keyword_of (spelling k) ≡ Some k }
{
    spelled_among(all_keywords(), bytes)
}
