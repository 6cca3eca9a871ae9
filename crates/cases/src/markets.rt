use market::band::{Band, Width};
use market::board::{Board, BoardNotice};
use market::book::{BookNotice, DepthBook};
use market::fault::Fault;
use market::interface::Market;
use market::quoted::Quoted;
use std::test::Fail;
use terms::side::Side;
use terms::top::Top;

// A top as its cents and its mark; 0 cents for none.
fn shown(top: Option<Top>) -> (u32, bool) {
    top.map_or((0, false), |top| (top.price.cents(), top.customer))
}

// The component and the cause of a refusal, none where a notice was taken.
fn refused(r: Result<(), Fault>) -> Option<(u32, u32)> {
    let fault = r.err()?;
    Some((fault.component, fault.cause.number()))
}

fn bid(component: u32, price: u32) -> BoardNotice {
    BoardNotice::Set(Quoted {
        component,
        side: Side::Buy,
        price,
        customer: false,
    })
}

fn add(number: u32, side: Side, price: u32, customer: bool) -> BookNotice {
    BookNotice::Add {
        number,
        quoted: Quoted {
            component: 1,
            side,
            price,
            customer,
        },
    }
}

#[test]
fn book_shows_its_best_price(rt: HostRuntime) -> Result<(), Fail> {
    let mut book = DepthBook::new(rt.alloc())?;
    assert_eq!(rt; refused(book.take(&add(1, Side::Buy, 300, false))), None);
    assert_eq!(rt; refused(book.take(&add(2, Side::Buy, 299, true))), None);
    assert_eq!(rt; shown(book.tell(1, Side::Buy)), (300, false));
    assert_eq!(rt; refused(book.take(&add(3, Side::Buy, 300, true))), None);
    assert_eq!(rt; shown(book.tell(1, Side::Buy)), (300, true));
    assert_eq!(rt; refused(book.take(&add(4, Side::Sell, 310, false))), None);
    assert_eq!(rt; refused(book.take(&add(5, Side::Sell, 305, false))), None);
    assert_eq!(rt; shown(book.tell(1, Side::Sell)), (305, false));
    assert_eq!(rt; shown(book.tell(2, Side::Sell)), (0, false));
    assert_eq!(rt; shown(book.tell(17, Side::Buy)), (0, false));
    Ok(())
}

#[test]
fn book_foresees_what_it_then_shows(rt: HostRuntime) -> Result<(), Fail> {
    let mut book = DepthBook::new(rt.alloc())?;
    assert_eq!(rt; refused(book.take(&add(1, Side::Buy, 300, false))), None);
    assert_eq!(rt;
        shown(book.foresee(&add(2, Side::Buy, 301, true), 1, Side::Buy)),
        (301, true)
    );
    assert_eq!(rt;
        shown(book.foresee(&add(1, Side::Buy, 301, true), 1, Side::Buy)),
        (300, false)
    );
    let gone = BookNotice::Withdraw { number: 1 };
    assert_eq!(rt; shown(book.foresee(&gone, 1, Side::Buy)), (0, false));
    assert_eq!(rt; shown(book.tell(1, Side::Buy)), (300, false));
    assert_eq!(rt; refused(book.take(&gone)), None);
    assert_eq!(rt; shown(book.tell(1, Side::Buy)), (0, false));
    assert_eq!(rt; refused(book.take(&gone)), Some((0, 3)));
    Ok(())
}

#[test]
fn book_is_full_at_64(rt: HostRuntime) -> Result<(), Fail> {
    let mut book = DepthBook::new(rt.alloc())?;
    for number in 1..65 {
        assert_eq!(rt;
            refused(book.take(&add(number, Side::Buy, 300, false))),
            None
        );
    }
    assert_eq!(rt;
        refused(book.take(&add(65, Side::Buy, 300, false))),
        Some((1, 2))
    );
    assert_eq!(rt;
        refused(book.take(&add(1, Side::Buy, 0, false))),
        Some((1, 1))
    );
    assert_eq!(rt;
        refused(book.take(&BookNotice::Withdraw { number: 0 })),
        Some((0, 1))
    );
    assert_eq!(rt;
        refused(book.take(&BookNotice::Withdraw { number: 64 })),
        None
    );
    assert_eq!(rt;
        refused(book.take(&add(1, Side::Buy, 300, false))),
        Some((1, 3))
    );
    assert_eq!(rt;
        refused(book.take(&add(1000000, Side::Buy, 300, false))),
        Some((1, 1))
    );
    Ok(())
}

#[test]
fn a_width_is_1_to_999999(rt: HostRuntime) {
    assert!(rt; Width::new(0).is_err());
    assert!(rt; Width::new(1).is_ok());
    assert!(rt; Width::new(999999).is_ok());
    assert!(rt; Width::new(1000000).is_err());
}

fn width(cents: u32) -> Result<Width, Fail> {
    Width::new(cents).map_err(|_| Fail::new("a width in range is refused"))
}

#[test]
fn a_band_over_a_band(rt: HostRuntime) -> Result<(), Fail> {
    let mut market = Band::new(Band::new(Board::new(), width(50)?), width(20)?);
    assert_eq!(rt; refused(market.take(&bid(1, 300))), None);
    assert_eq!(rt; refused(market.take(&bid(1, 321))), Some((1, 4)));
    assert_eq!(rt;
        shown(market.foresee(&bid(1, 321), 1, Side::Buy)),
        (300, false)
    );
    assert_eq!(rt; refused(market.take(&bid(1, 320))), None);
    assert_eq!(rt; shown(market.tell(1, Side::Buy)), (320, false));
    assert_eq!(rt; refused(market.take(&bid(17, 320))), Some((0, 1)));
    assert_eq!(rt; refused(market.take(&bid(2, 0))), Some((2, 1)));
    Ok(())
}
