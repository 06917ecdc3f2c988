//! The instructions of the rule machine.

/// One instruction. Places are counted from 0, fields and ports too.
#[derive(Clone, Copy, Debug)]
pub enum Instr {
    /// Puts a number.
    Push(u64),
    /// Puts the identity.
    Id,
    /// Puts the mark.
    Mark,
    /// Puts the number of the state.
    Num,
    /// Puts the number of ports.
    Degree,
    /// Puts 1 where the node points at a port, else 0.
    Pointed,
    /// Puts a field of the own label.
    My(u8),
    /// Puts a field of the label above, 0 without a pointer.
    Up(u8),
    /// Puts a field of the label at the innermost port.
    Nb(u8),
    /// Puts the weight of the port that the node points at, 0 without a pointer.
    UpWeight,
    /// Puts the weight of the innermost port.
    NbWeight,
    /// Puts 1 where the node points at the innermost port, else 0.
    NbUp,
    /// Replaces the top two by their sum.
    Add,
    /// Replaces the top two by the top where the one below is 1, else by 0.
    Mask,
    /// Replaces the top two by 1 where they are equal, else by 0.
    Eq,
    /// Replaces the top two by 1 where the one below is smaller, else by 0.
    Lt,
    /// Replaces the top two by 1 where the one below is not greater, else by 0.
    Le,
    /// Replaces the top by 1 where it is 0, else by 0.
    Not,
    /// Replaces the top two by 1 where both are 1, else by 0.
    Both,
    /// Replaces the top two by 1 where at least one is 1, else by 0.
    Either,
    /// Begins with port 0.
    Begin,
    /// Leaves the innermost port and goes to a place where that port is the number of ports; else
    /// goes on.
    More(usize),
    /// Turns to the next port and goes to a place.
    Next(usize),
    /// Takes the top, and rejects by the rule of this number where it is 0.
    Rule(u8),
    /// Accepts.
    Accept,
}
