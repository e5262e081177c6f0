// Settling an order.
ghost use Rattle.std.specs.Prelude.{◌≡◌, ◌≤◌, true, length};
ghost use Rattle.deal.specs.Answers.{most_lines};
ghost use Rattle.auction.specs.Limits.{least_blotter};
ghost use Rattle.auction.specs.Lines.{interest, lawful};
ghost use Rattle.auction.specs.Terms.{terms_of};
ghost use Rattle.auction.specs.Pricing.{pricing_in};
ghost use Rattle.auction.specs.Settlement.{settlement, fills_of};
ghost use Rattle.auction.specs.Answers.{answer_of, written_over, settle_answer, after_settle, Keeps};

use super::blotter::{Notes, Pricing};
use super::counting::{counted, gain_at, reserved};
use super::limits::LEAST_BLOTTER;
use super::line::Line;
use super::order::Order;
use super::seats::can_stand;
use super::settled::Settled;
use deal::allocate::allocate;
use deal::better::better_total;
use deal::block::block_gain;
use deal::terms::{MOST_LINES, Terms};
use filling::interest::Interest;
use market::fill::{Fill, Party};
use market::names::Mechanism;
use market::refusal::Refusal;

// The order as its lines see it.
fn terms_of(order: &Order) -> Terms
    ensures { result ≡ terms_of order.now }
{
    Terms {
        mechanism: order.mechanism,
        size: order.size,
        gain: gain_at(order.side, order.price),
        reserved: reserved(order),
    }
}

// How the lines are priced: at their own prices, but customers at the order's in a facilitation that better lines do not
// fill, and all at one price in a block.
fn pricing_of(order: &Order, counted: &[Interest]) -> Pricing
    requires { length counted.now ≤ most_lines }
    ensures { result ≡ pricing_in order.now.mechanism order.now counted.now }
{
    let gain = gain_at(order.side, order.price);
    match order.mechanism {
        Mechanism::Facilitation if better_total(gain, counted).unwrap() < order.size => {
            Pricing::CustomersAt(order.price)
        }
        Mechanism::Facilitation | Mechanism::Solicited => Pricing::Own,
        Mechanism::Block => {
            let best = block_gain(order.size, gain, counted).unwrap();
            Pricing::AllAt(gain_at(order.side, best))
        }
    }
}

// Settles an order against lines that may stand, as they are counted.
fn settle_counted(
    order: &Order,
    lines: &[Line],
    counted: &[Interest],
    fills: &mut [u32],
    blotter: &mut [Fill],
) -> Settled
    requires stand { lawful lines.now ≡ true }
    requires counted { counted.now ≡ interest order.now lines.now }
    requires long { length fills.old ≡ length lines.now }
    requires room { least_blotter ≤ length blotter.old }
    ensures answer { result ≡ answer_of (settlement order.now lines.now) }
    ensures after { blotter.new ≡ written_over (fills_of (settlement order.now lines.now)) blotter.old }
{
    let contra = allocate(&terms_of(order), counted, fills).unwrap()?;
    let mut notes = Notes::new(blotter);
    notes.note_lines(pricing_of(order, counted), lines, fills);
    notes.note(Fill {
        party: Party::Contra,
        price: order.price,
        contracts: contra,
    });
    Ok(notes.executed())
}

// Settles an order against lines in line order: entries of the pool by rising place, then responses. Fills go onto the
// first lines of the blotter, the contra's last, and the rest of it stays. Refused, and nothing written, where there are
// too many lines, a line is out of line order or of a party that has none, or the blotter is too short.
pub fn settle(order: &Order, lines: &[Line], blotter: &mut [Fill]) -> Result<Settled, Refusal>
    ensures answer { result ≡ settle_answer order.now lines.now (length blotter.old) }
    ensures after { blotter.new ≡ after_settle order.now lines.now blotter.old }
    ensures keeps { Keeps order.now lines.now result blotter.old blotter.new }
{
    if !can_stand(lines) {
        return Err(Refusal::OutOfLimits);
    }
    if blotter.len() < LEAST_BLOTTER {
        return Err(Refusal::BlotterShort);
    }
    // A table, since `allocate` writes over the places that it is lent.
    let mut fills = [0u32; MOST_LINES];
    Ok(settle_counted(
        order,
        lines,
        &counted(order, lines),
        &mut fills[..lines.len()],
        blotter,
    ))
}
