// The kinds of answers.
ghost use Rattle.std.specs.Prelude.{◌≡◌};
ghost use Rattle.answers.specs.Kinds.{kind_number, IsKind};

use wire::UnknownKind;

// By names; as bytes they are the numbers from 0 on.
#[derive(Clone, Copy)]
pub enum AnswerKind {
    Refused,
    Number,
    Shown,
    Listed,
    Forced,
}

impl TryFrom<u8> for AnswerKind {
    type Error = UnknownKind;

    ghost try_from_gives = { IsKind };

    fn try_from(byte: u8) -> Result<AnswerKind, UnknownKind> {
        match byte {
            0 => Ok(AnswerKind::Refused),
            1 => Ok(AnswerKind::Number),
            2 => Ok(AnswerKind::Shown),
            3 => Ok(AnswerKind::Listed),
            4 => Ok(AnswerKind::Forced),
            _ => Err(UnknownKind),
        }
    }
}

impl From<AnswerKind> for u8 {
    ghost from_gives = { λ kind byte. byte ≡ kind_number kind };

    fn from(kind: AnswerKind) -> u8 {
        kind as u8
    }
}
