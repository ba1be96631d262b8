// What a line of an evening file says: one of twelve instructions.
use terms::{RuleKind, Style};

// How many losses an option has.
pub(crate) const LOSSES: usize = 16;

// An instruction, with its code words as they stand in the line.
#[derive(Clone, Copy, Debug, PartialEq, Eq)]
pub enum Line<'a> {
    // A account
    Account {
        account: &'a [u8],
    },
    // C number code style volume expiry price haircut
    Contract {
        number: i64,
        code: &'a [u8],
        style: Style,
        volume: i64,
        expiry: i64,
        price: i64,
        haircut: i64,
    },
    // F code commodity range
    Future {
        code: &'a [u8],
        commodity: i64,
        range: i64,
    },
    // O code commodity delta and sixteen losses
    Option {
        code: &'a [u8],
        commodity: i64,
        delta: i64,
        losses: [i64; LOSSES],
    },
    // N commodity minimum
    Minimum {
        commodity: i64,
        minimum: i64,
    },
    // X P|R commodity commodity credit
    Rule {
        kind: RuleKind,
        first: i64,
        second: i64,
        credit: i64,
    },
    // T buyer seller code lots price
    Trade {
        buyer: &'a [u8],
        seller: &'a [u8],
        code: &'a [u8],
        lots: i64,
        price: i64,
    },
    // P code price
    Price {
        code: &'a [u8],
        price: i64,
    },
    // D
    Close,
    // E code price
    Expiry {
        code: &'a [u8],
        price: i64,
    },
    // M from to
    Transfer {
        from: &'a [u8],
        to: &'a [u8],
    },
    // R account
    Reading {
        account: &'a [u8],
    },
}
