// An auction is made from a row after a check, and gives its row back whole.
ghost use Rattle.std.specs.Prelude.{◌≡◌, true, if◌then◌else◌, Some, None};
ghost use Rattle.std.specs.Option.{option_map};
ghost use Rattle.terms.specs.Ranges.{between, complex_price};
ghost use Rattle.auction.specs.Auctions.{row_of};
ghost use Rattle.auction.specs.Caps.{cap_fits};
ghost use Rattle.auction.specs.Records.{cap_at, sound, stop_of};

use super::Auction;
use crate::agency::as_buyer;
use terms::auction::AuctionRow;

// Whether the cap, if there is one, is at or below the stop, as a buyer sees them.
fn cap_fits(row: &AuctionRow) -> bool
    ensures { result ≡ cap_fits (cap_at row.now) (stop_of row.now) }
{
    row.cap.is_none_or(|cap| as_buyer(row.side, cap) <= as_buyer(row.side, row.stop))
}

fn size_fits(size: u32) -> bool
    ensures { result ≡ between 1 100000 size }
{
    (1..=100_000).contains(&size)
}

fn stop_fits(row: &AuctionRow) -> bool
    ensures { result ≡ complex_price row.now.stop }
{
    (-32_000_000..=32_000_000).contains(&row.stop)
}

// Whether an auction may have this row.
fn is_sound(row: &AuctionRow) -> bool
    ensures { result ≡ sound row.now }
{
    cap_fits(row) && size_fits(row.size) && stop_fits(row)
}

impl Auction {
    // The auction of this row, if the row is sound.
    pub fn new(row: AuctionRow) -> Option<Auction>
        ensures { option_map row_of result ≡ (if sound row then Some row else None) }
    {
        if is_sound(&row) {
            Some(Auction { row })
        } else {
            None
        }
    }

    // The row, to be written back whole.
    pub fn row(&self) -> AuctionRow
        ensures value { result ≡ self.now.row }
        ensures sound { sound result ≡ true }
    {
        self.row
    }
}
