// The twelve forms of a line: for each, its words in their order and what they say.
ghost use Rattle.std.specs.Prelude.{◌≡◌, ℕ, List, length, ℤ};
ghost use Rattle.std.specs.Option.{ok_or};
ghost use Rattle.terms.specs.declared.faults.ReaderFault.TheVariants.{Number};
ghost use Rattle.evening_file.specs.Lines.{of_code, of_code_and_number, contract, future, numbers, option, minimum, rule, trade, close, transfer, behind, formed};
ghost use Rattle.evening_file.specs.Said.{Said, seen, SaysOfCode, SaysOfCodeAndNumber};
ghost use Rattle.evening_file.specs.Words.{left};

use crate::line::{LOSSES, Line};
use crate::words::Words;
use terms::{ReaderFault, RuleKind, Style};

// Reads the form of one code, of which `make` makes the instruction.
fn read_code<'a, F: FnOnce(&'a [u8]) -> Line<'a>>(
    rest: &'a [u8],
    make: F,
) -> Result<Line<'a>, ReaderFault>
    requires { F.IsAlwaysCallable make }
    ensures { (says : List ℕ → Said) → SaysOfCode (F.post make) says → seen result ≡ behind rest.now (of_code says) }
{
    let mut words = Words::after_letter(rest, 1)?;
    let code = words.text();
    Ok(make(code))
}

// Reads the form of a code and a number, of which `make` makes the instruction.
fn read_code_and_number<'a, F: FnOnce(&'a [u8], i64) -> Line<'a>>(
    rest: &'a [u8],
    make: F,
) -> Result<Line<'a>, ReaderFault>
    requires { F.IsAlwaysCallable make }
    ensures { (says : List ℕ → ℤ → Said)
        → SaysOfCodeAndNumber (F.post make) says → seen result ≡ behind rest.now (of_code_and_number says) }
{
    let mut words = Words::after_letter(rest, 2)?;
    let code = words.text();
    let number = words.value()?;
    Ok(make(code, number))
}

// Reads `C number code style volume expiry price haircut`; the style is looked at before the first number.
fn read_contract(rest: &[u8]) -> Result<Line<'_>, ReaderFault>
    ensures { seen result ≡ behind rest.now contract }
{
    let mut words = Words::after_letter(rest, 7)?;
    let listed = words.number();
    let code = words.text();
    let style = Style::try_from(words.letter()?)?;
    let number = listed.value()?;
    let volume = words.value()?;
    let expiry = words.value()?;
    let price = words.value()?;
    let haircut = words.value()?;
    Ok(Line::Contract {
        number,
        code,
        style,
        volume,
        expiry,
        price,
        haircut,
    })
}

// Reads `F code commodity range`.
fn read_future(rest: &[u8]) -> Result<Line<'_>, ReaderFault>
    ensures { seen result ≡ behind rest.now future }
{
    let mut words = Words::after_letter(rest, 3)?;
    let code = words.text();
    let commodity = words.value()?;
    let range = words.value()?;
    Ok(Line::Future {
        code,
        commodity,
        range,
    })
}

// Reads the sixteen losses of an option, each a number.
fn read_losses(words: &mut Words<'_>) -> Result<[i64; LOSSES], ReaderFault>
    ensures { length (left words.old) ≡ 16 → result ≡ ok_or (numbers (left words.old)) Number }
{
    let mut losses = [0; LOSSES];
    for loss in &mut losses {
        *loss = words.value()?;
    }
    Ok(losses)
}

// Reads `O code commodity delta` and sixteen losses.
fn read_option(rest: &[u8]) -> Result<Line<'_>, ReaderFault>
    ensures { seen result ≡ behind rest.now option }
{
    let mut words = Words::after_letter(rest, 3 + LOSSES)?;
    let code = words.text();
    let commodity = words.value()?;
    let delta = words.value()?;
    let losses = read_losses(&mut words)?;
    Ok(Line::Option {
        code,
        commodity,
        delta,
        losses,
    })
}

// Reads `N commodity minimum`.
fn read_minimum(rest: &[u8]) -> Result<Line<'_>, ReaderFault>
    ensures { seen result ≡ behind rest.now minimum }
{
    let mut words = Words::after_letter(rest, 2)?;
    let commodity = words.value()?;
    let minimum = words.value()?;
    Ok(Line::Minimum { commodity, minimum })
}

// Reads `X P|R commodity commodity credit`.
fn read_rule(rest: &[u8]) -> Result<Line<'_>, ReaderFault>
    ensures { seen result ≡ behind rest.now rule }
{
    let mut words = Words::after_letter(rest, 4)?;
    let kind = RuleKind::try_from(words.letter()?)?;
    let first = words.value()?;
    let second = words.value()?;
    let credit = words.value()?;
    Ok(Line::Rule {
        kind,
        first,
        second,
        credit,
    })
}

// Reads `T buyer seller code lots price`.
fn read_trade(rest: &[u8]) -> Result<Line<'_>, ReaderFault>
    ensures { seen result ≡ behind rest.now trade }
{
    let mut words = Words::after_letter(rest, 5)?;
    let buyer = words.text();
    let seller = words.text();
    let code = words.text();
    let lots = words.value()?;
    let price = words.value()?;
    Ok(Line::Trade {
        buyer,
        seller,
        code,
        lots,
        price,
    })
}

// Reads `D`.
fn read_close(rest: &[u8]) -> Result<Line<'_>, ReaderFault>
    ensures { seen result ≡ behind rest.now close }
{
    Words::after_letter(rest, 0)?;
    Ok(Line::Close)
}

// Reads `M from to`.
fn read_transfer(rest: &[u8]) -> Result<Line<'_>, ReaderFault>
    ensures { seen result ≡ behind rest.now transfer }
{
    let mut words = Words::after_letter(rest, 2)?;
    let from = words.text();
    let to = words.text();
    Ok(Line::Transfer { from, to })
}

// Reads a line by the form that its letter begins: by a slice pattern on the first byte and the rest, a form that docs/DECISIONS.md settles.
#[tactic(auto, using(crate::proofs::Lettered::lettered, crate::proofs::Lettered::unlettered))]
pub(crate) fn read_form(line: &[u8]) -> Result<Line<'_>, ReaderFault>
    ensures { seen result ≡ formed line.now }
{
    match line {
        [b'A', rest @ ..] => read_code(rest, |account| Line::Account { account }),
        [b'C', rest @ ..] => read_contract(rest),
        [b'F', rest @ ..] => read_future(rest),
        [b'O', rest @ ..] => read_option(rest),
        [b'N', rest @ ..] => read_minimum(rest),
        [b'X', rest @ ..] => read_rule(rest),
        [b'T', rest @ ..] => read_trade(rest),
        [b'P', rest @ ..] => read_code_and_number(rest, |code, price| Line::Price { code, price }),
        [b'D', rest @ ..] => read_close(rest),
        [b'E', rest @ ..] => read_code_and_number(rest, |code, price| Line::Expiry { code, price }),
        [b'M', rest @ ..] => read_transfer(rest),
        [b'R', rest @ ..] => read_code(rest, |account| Line::Reading { account }),
        _ => Err(ReaderFault::Form),
    }
}
