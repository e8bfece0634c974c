// What an operation answers (01, "Numbered reasons"): its values, or one reason alone.
//
// The contract of an operation that can refuse cites `specs/Answer.antt` (what an answer is, and what
// it leaves in a lent slice), `specs/Reasons.antt` (the number of each reason) and `specs/Order.antt` (its
// reasons in their order). The laws that hold of any list of reasons and any value are in
// `proofs/OrderLaws.antt`, those of a lent slice in `proofs/Writing.antt`; that a promise has one answer
// only is in `proofs/OnlyOne.antt`.

#![tactic(auto)]

ghost use Rattle.std.specs.Prelude.{◌≡◌};
ghost use Rattle.reason.specs.Reasons.{number_of};

// Why an operation refused: one of the fifteen reasons of 01, in the order of their numbers. A refusal gives
// the first that holds in the operation's order, and has changed nothing.
#[derive(Clone, Copy, Debug, PartialEq, Eq, PartialOrd, Ord, Hash)]
pub enum Reason {
    // 1: a frame has fewer than 16 bytes, or its information is too short.
    Short = 1,
    // 2: an address is malformed.
    Address = 2,
    // 3: the control byte is not 0x03.
    Control = 3,
    // 4: the protocol is not the one that the operation reads.
    Protocol = 4,
    // 5: the flags are not allowed.
    Flags = 5,
    // 6: the check bytes are not the remainder.
    Check = 6,
    // 7: a size is wrong: of the information, a piece, a file, a block or a request.
    Size = 7,
    // 8: the file header breaks a rule.
    Header = 8,
    // 9: it is another file's.
    OtherFile = 9,
    // 10: a piece ends beyond the file, or a hole in a request breaks its rules.
    Beyond = 10,
    // 11: a byte that is held already differs.
    Differs = 11,
    // 12: the lent space is too short.
    Space = 12,
    // 13: a record is malformed.
    Record = 13,
    // 14: a directory entry's header is not whole.
    NotWhole = 14,
    // 15: no hole starts at the place or later.
    NoHole = 15,
}

// The number of a reason, as 01 counts them.
impl From<Reason> for u8 {
    ghost from_gives = { λ reason n. n ≡ number_of reason };

    fn from(reason: Reason) -> u8 {
        reason as u8
    }
}
