// The calls of a script.
use engine::slip::Numbers;

#[derive(Drop)]
pub(crate) enum Call {
    Tally,
    // The bytes of a book.
    Load(Vec<u8>),
    Put { figure: u32, amount: i32 },
    Run { event: u32 },
    Show { level: u16, figure: u32 },
    Clock { level: u16 },
    Open { holder: u16, from: u32, to: u32 },
    Carry(Numbers),
    Withdraw(Numbers),
}
