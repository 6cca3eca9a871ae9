use market::book::{BookNotice, DepthBook};
use market::interface::Market;
use market::quoted::Quoted;
use session::state::Session;
use std::test::Fail;
use terms::leg::Leg;
use terms::side::Side;
use terms::synthetic::Synthetic;

fn cents(price: Option<Synthetic>) -> (i32, bool) {
    price.map_or((0, false), |price| (price.price, price.customer))
}

// A leg that counts as much as a leg can.
fn dear(component: u32) -> Leg {
    Leg {
        component,
        side: Side::Buy,
        ratio: 8,
    }
}

#[test]
fn four_dear_legs_stay_in_range(rt: HostRuntime) -> Result<(), Fail> {
    let book = DepthBook::new(rt.alloc())?;
    let mut session = Session::new(rt.alloc(), book, ())?;
    let listed = session.list(&[dear(1), dear(2), dear(3), dear(4)]);
    assert!(rt; listed.is_ok());
    let opened = session.open(100);
    assert!(rt; opened.is_ok());
    for component in 1..5 {
        let notice = BookNotice::Add {
            number: component,
            quoted: Quoted {
                component,
                side: Side::Buy,
                price: 999999,
                customer: component == 3,
            },
        };
        assert!(rt; session.notice(&notice).is_ok());
    }
    let reading = session
        .read(1)
        .map_err(|_| Fail::new("read of a listed strategy is refused"))?;
    assert_eq!(rt; cents(reading.sbb), (31999968, true));
    assert_eq!(rt; cents(reading.sbo), (0, false));
    Ok(())
}
