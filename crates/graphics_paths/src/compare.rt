// The compare read: the bits at which the latches have the colour asked for, worked out from whole latch bytes, plane by plane.
//
// Two registers of the controller say what is asked for, a bit for each plane. Bit p of Color Compare (register 2) is the bit that plane p is to have. Bit p of Color Don't Care (register 7) says
// whether plane p is looked at: 1 means that the plane IS compared, 0 that it is not, which is the opposite of what the name says. Each plane gives a byte, with a 1 at each bit where it agrees:
//
//     compared        the latch exclusive-or its Color Compare bit, spread over eight bits, has a 1 where they differ; turned over, where they agree
//     not compared    FF: it agrees at every bit, and so stops none
//
// A bit of the answer is 1 where every plane agrees: the four bytes are joined by `and`. Document 01's case 9 by hand: latches F0, CC, AA, 00, Color Compare 3, three values of Color Don't Care:
//
//     plane   latch   Color Compare bit, spread   agrees where   Don't Care F   Don't Care 3   Don't Care 0
//     0       F0      FF                          F0             F0             F0             FF
//     1       CC      FF                          CC             CC             CC             FF
//     2       AA      00                          55             55             FF             FF
//     3       00      00                          FF             FF             FF             FF
//     all, joined by `and`                                       40             C0             FF
ghost use Rattle.std.specs.Prelude.{◌≡◌, ◌≤◌, true, ◌==◌};
ghost use Rattle.bits.specs.Bit.{bit, byte_of, is_one, bit_of, pick};
ghost use Rattle.machine.specs.Deeds.{compared};

use bits::inner::spread;

// What a plane gives, one byte of the table: all bits where its Don't Care bit is 0, else those at which its latch equals its Color Compare bit.
fn plane_comp(color_dont_care: u8, color_compare: u8, plane: u8, latch: u8) -> u8
    requires { plane ≤ 3 }
    ensures { result ≡ byte_of (λ i. bit_of (pick (is_one (bit plane color_dont_care)) (bit i latch == bit plane color_compare) true)) }
{
    if color_dont_care & (1 << plane) != 0 {
        return !(latch ^ spread(color_compare, plane));
    }
    0xFF
}

// What a compare read answers, the table's last row: the bits at which all four planes agree.
pub fn pixel_op_compare(color_dont_care: u8, color_compare: u8, latches: [u8; 4]) -> u8
    ensures { result ≡ compared color_dont_care color_compare latches }
{
    let agree0 = plane_comp(color_dont_care, color_compare, 0, latches[0]);
    let agree1 = plane_comp(color_dont_care, color_compare, 1, latches[1]);
    let agree2 = plane_comp(color_dont_care, color_compare, 2, latches[2]);
    let agree3 = plane_comp(color_dont_care, color_compare, 3, latches[3]);
    agree0 & agree1 & agree2 & agree3
}
