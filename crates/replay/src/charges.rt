// Travel charges, by dx, dy, the rate and the number of children.
use crate::line::{bits_at, is_in_form, number_of};
use crate::reply::Reply;
use charge::{bill_of, travel_charge};
use refusals::number;

// The shares in one number: turned by a bit for each, and changed by it.
fn print(shares: &[u64]) -> u64 {
    let mut print: u64 = 0;
    for &share in shares {
        print = print.rotate_left(1) ^ share;
    }
    print
}

pub(crate) fn of_charge(text: &[u8]) -> Option<Reply> {
    if is_in_form(text, 4) {
        let answer = travel_charge(
            number_of(text, 0),
            number_of(text, 1),
            bits_at(text, 2),
            bits_at(text, 3),
        );
        let bill = bill_of(answer);
        return Some(Reply::Row(number(answer), bill.charge, print(&bill.shares)));
    }
    None
}
