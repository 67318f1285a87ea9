// The worked frame of the format, made by the code and shown of the definition.
ghost use Rattle.std.specs.Prelude.{◌≡◌};
ghost use Rattle.trials.specs.Worked.{worked_bytes, WorkedFrame};

use values::rate::Rate;
use votes::frame::write_frame;
use votes::kind::Kind;
use votes::numbers::Numbers;
use votes::vote::Vote;

// PRECOMMIT, page 7, round 0, house 2, rate 12,500, as a frame.
pub fn worked_frame() -> [u8; 21]
    ensures value { result ≡ worked_bytes }
    ensures shown { WorkedFrame }
{
    let vote = Vote {
        numbers: Numbers {
            kind: u8::from(Kind::Precommit),
            page: 7,
            round: 0,
            house: 2,
            cp: 0,
            val: 0,
        },
        value: Rate { amount: 12_500 },
    };
    let mut frame = [0; 21];
    // No error can come: the frame of a rate has 21 bytes.
    let _ = write_frame(vote, &mut frame);
    frame
}
