//! Why receipts are not the journal.

ghost use Rattle.std.specs.Prelude.{◌≡◌};

/// What is found first where the receipts of the seats are not the journal.
#[derive(Clone, Copy, Debug, PartialEq, Eq)]
pub enum Fault {
    /// The journal has not as many entries as the seats have receipts.
    CountDiffers,
    /// The number of the first seat whose number a seat before it has.
    SeatTwice(u8),
    /// The number of a seat, and the index in its first faulty receipt: the entry there is missing, or has
    /// another seat, event or reply; or the index is not after that of the seat's receipt before.
    ReceiptDiffers(u8, u32),
}
