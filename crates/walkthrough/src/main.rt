// Works one task with the directory and prints what it did: a delivery area whose codes all begin with the same eight letters.
#![tactic(auto)]

use directory::{Directory, Entry};
use std::io;
use terms::DirectoryFault;

// How many contracts the delivery area has, and how many entries the directory.
const CONTRACTS: u8 = 64;

// The code of one contract of the delivery area NORDWEST, digit by digit: `write!` answers a `Result`, and two digits always fit.
fn code_of(n: u8) -> [u8; 10] {
    let mut code = *b"NORDWEST00";
    code[8] = b'0' + n / 10 % 10;
    code[9] = b'0' + n % 10;
    code
}

// Enters every contract with its number.
fn enter_all(contracts: &mut Directory<'_>) -> Result<(), DirectoryFault> {
    for n in 0..CONTRACTS {
        contracts.enter(&code_of(n), u32::from(n))?;
    }
    Ok(())
}

// How many contracts are found with their own number.
fn count_found(contracts: &Directory<'_>) -> usize {
    (0..CONTRACTS)
        .filter(|n| contracts.find(&code_of(*n)) == Ok(u32::from(*n)))
        .count()
}

// Prints what a call that was to be refused answered.
fn tell(rt: &HostRuntime, what: &str, answer: Result<u32, DirectoryFault>) -> io::Result<()> {
    match answer {
        Ok(number) => println!(rt; "{what}: number {number}"),
        Err(fault) => println!(rt; "{what}: refused, {}", fault.number()),
    }
}

// Enters a code and answers the number that it was given.
fn enter(contracts: &mut Directory<'_>, code: &[u8], number: u32) -> Result<u32, DirectoryFault> {
    contracts.enter(code, number)?;
    Ok(number)
}

fn main(rt: HostRuntime) -> io::Result<()> {
    // By a cast: `usize::from` makes no constant.
    let mut memory = [Entry::NONE; CONTRACTS as usize];
    let mut contracts = Directory::open(&mut memory);
    println!(rt; "delivery area NORDWEST, {CONTRACTS} contracts, codes NORDWEST00 to NORDWEST63")?;
    if let Err(fault) = enter_all(&mut contracts) {
        println!(rt; "a contract was refused, {}", fault.number())?;
    }
    let entered = contracts.len();
    let found = count_found(&contracts);
    println!(rt; "entered: {entered}; found again with their own number: {found}")?;
    tell(&rt, "NORDWEST41 looked up", contracts.find(b"NORDWEST41"))?;
    tell(
        &rt,
        "NORDWEST41 entered once more",
        enter(&mut contracts, b"NORDWEST41", 5),
    )?;
    tell(
        &rt,
        "NordWest41 entered",
        enter(&mut contracts, b"NordWest41", 5),
    )?;
    tell(
        &rt,
        "NORDWEST64 entered, a sixty-fifth",
        enter(&mut contracts, b"NORDWEST64", 64),
    )?;
    tell(&rt, "NORDWEST64 looked up", contracts.find(b"NORDWEST64"))?;
    tell(&rt, "an empty code looked up", contracts.find(b""))?;
    tell(
        &rt,
        "NORDWESTENERGIE looked up",
        contracts.find(b"NORDWESTENERGIE"),
    )?;
    tell(&rt, "NORDWEST41 looked up", contracts.find(b"NORDWEST41"))
}
