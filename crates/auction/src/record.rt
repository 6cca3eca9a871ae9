// An auction: a row whose cap is at or below its stop and whose size and stop are in range, and no
// other value exists.
ghost use Rattle.std.specs.Prelude.{◌≡◌, true};
ghost use Rattle.auction.specs.Records.{sound};

use terms::auction::AuctionRow;

mod made;
mod read;

#[derive(Clone, Copy)]
pub struct Auction {
    row: AuctionRow,
    ghost kept: { sound row ≡ true },
}
