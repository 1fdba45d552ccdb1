// The lines in front of the rows.
ghost use Rattle.std.specs.Prelude.{◌≡◌};
ghost use Rattle.theory_dumps.specs.Dumps.{header};
ghost use Rattle.theory_dumps.specs.ways.Undump.{behind};
ghost use Rattle.dump.specs.ways.Putting.{Put};
ghost use Rattle.dump.specs.ways.Reading.{rest_of};

use crate::text::put_bytes;

pub(crate) const HEADER_BYTES: usize = 1400;

const HEADER: [u8; HEADER_BYTES] = *b"$timescale 1 ns $end\n\
$scope module trace $end\n\
$var wire 64 ! clk $end\n\
$var wire 64 \" ctx $end\n\
$var wire 64 # fn_hash0 $end\n\
$var wire 64 $ fn_hash1 $end\n\
$var wire 64 % fn_hash2 $end\n\
$var wire 64 & fn_hash3 $end\n\
$var wire 64 ' addr $end\n\
$var wire 64 ( op_bit0 $end\n\
$var wire 64 ) op_bit1 $end\n\
$var wire 64 * op_bit2 $end\n\
$var wire 64 + op_bit3 $end\n\
$var wire 64 , op_bit4 $end\n\
$var wire 64 - op_bit5 $end\n\
$var wire 64 . op_bit6 $end\n\
$var wire 64 / h0 $end\n\
$var wire 64 0 h1 $end\n\
$var wire 64 1 h2 $end\n\
$var wire 64 2 h3 $end\n\
$var wire 64 3 h4 $end\n\
$var wire 64 4 h5 $end\n\
$var wire 64 5 h6 $end\n\
$var wire 64 6 h7 $end\n\
$var wire 64 7 in_span $end\n\
$var wire 64 8 group_count $end\n\
$var wire 64 9 op_index $end\n\
$var wire 64 : batch_flag0 $end\n\
$var wire 64 ; batch_flag1 $end\n\
$var wire 64 < batch_flag2 $end\n\
$var wire 64 = extra0 $end\n\
$var wire 64 > extra1 $end\n\
$var wire 64 ? stack0 $end\n\
$var wire 64 @ stack1 $end\n\
$var wire 64 A stack2 $end\n\
$var wire 64 B stack3 $end\n\
$var wire 64 C stack4 $end\n\
$var wire 64 D stack5 $end\n\
$var wire 64 E stack6 $end\n\
$var wire 64 F stack7 $end\n\
$var wire 64 G stack8 $end\n\
$var wire 64 H stack9 $end\n\
$var wire 64 I stack10 $end\n\
$var wire 64 J stack11 $end\n\
$var wire 64 K stack12 $end\n\
$var wire 64 L stack13 $end\n\
$var wire 64 M stack14 $end\n\
$var wire 64 N stack15 $end\n\
$var wire 64 O b0 $end\n\
$var wire 64 P b1 $end\n\
$var wire 64 Q helper $end\n\
$upscope $end\n\
$enddefinitions $end\n";

// Puts them at the start of a text and answers their bytes.
#[tactic(auto, unfolding(theory_dumps::specs::Dumps::bytes, theory_dumps::specs::Dumps::columns, theory_dumps::specs::Dumps::header, theory_dumps::specs::Dumps::var_lines))]
pub(crate) fn put_header(text: &mut [u8]) -> usize
    ensures { Put text.old 0 header text.new result }
{
    put_bytes(text, 0, &HEADER)
}

// Behind them in a text.
pub(crate) fn after_header(text: &[u8]) -> Option<&[u8]>
    ensures { rest_of result ≡ behind header text.now }
{
    text.strip_prefix(&HEADER)
}
