//! The texts of systems.

/// A process counts once.
pub const COUNTER: &[u8] = b"process a var k : 0..1 begin k = 0 -> k := 1 end";

/// Guards and bodies read inputs.
pub const INPUTS: &[u8] = b"process a inp low : -2..5; go : boolean var k : -2..5 = 0 \
begin go -> k := low end \
process b inp high : 7..9 var h : 7..9 = 8 begin h = 8 -> h := high end";

/// An input is sent from a to b.
pub const HELLO: &[u8] = b"message hello begin n : 8 bits end \
process a inp number : 0..255 var said : boolean begin said = false -> said := true; send hello(number) to b end \
process b var heard : 0..255 begin rcv hello from a -> heard := hello.n end";

/// Two actions are enabled at once.
pub const EITHER: &[u8] = b"process a var x : 0..2 begin 1 = 1 -> x := 1 [] 1 = 1 -> x := 2 end";

/// A datagram goes from a to b.
pub const PING: &[u8] = b"message ping begin n : 8 bits end \
process a var k : 0..1 begin k = 0 -> k := 1; send ping(k) to b end \
process b var seen : 0..255 begin rcv ping from a -> seen := ping.n end";

/// 258, 197121 and 283686952306183 are 01 02, 03 02 01 and 01 02 03 04 05 06 07 in bytes.
pub const WIDE: &[u8] = b"message wide begin x : 16 bits; y : 24 bits; z : 56 bits end \
process a var k : 0..1 begin k = 0 -> k := 1; send wide(258, 197121, 283686952306183) to b end \
process b var v : 0..65535; w : 0..16777215 begin rcv wide from a -> v := wide.x; w := wide.y end";

/// Two messages of different lengths from one peer.
pub const APART: &[u8] = b"message p begin x : 8 bits end message q begin y : 16 bits end \
process a var k : 0..1 begin k = 0 -> k := 1; send p(1) to b; send q(2) to b end \
process b var s : 0..65535 begin rcv p from a -> s := p.x [] rcv q from a -> s := q.y end";

/// A number is handed on from a to b, and from b to c.
pub const CHAIN: &[u8] = b"message hand begin n : 8 bits end \
process a var k : 0..9 begin k = 0 -> k := 7; send hand(k) to b end \
process b var seen : 0..255 begin rcv hand from a -> seen := hand.n; send hand(hand.n) to c end \
process c var got : 0..255 begin rcv hand from b -> got := hand.n end";

/// A token goes to and fro, with a number of who had it last; who has it works first.
pub const TOKEN: &[u8] = b"message token begin number : 8 bits end \
process left const none = -1; mine = 7 var has : boolean = 1; works : boolean = 1; seen : none..255 = none \
begin (works) -> works := false [] has = true -> has := false; send token(mine) to right \
[] rcv token from right -> has := true; works := true; seen := token.number end \
process right const none = -1; mine = 12 var has : boolean; works : boolean = 0; seen : none..255 = none \
begin works -> works := false [] (has) = true -> has := false; send token((mine)) to left \
[] rcv token from left -> has := true; works := true; seen := token.number end";

/// Three sends, of which a cut may take back some.
pub const CUT: &[u8] = b"message m begin f : 8 bits end
process a var n : 0..1
begin n = 0 -> n := 1; send m(1) to b; send m(2) to c; send m(3) to b end
process b begin rcv m from a -> skip end
process c begin rcv m from a -> skip end
";

/// Three actions are enabled at once.
pub const TRI: &[u8] = b"process a var x : 0..2
begin true -> x := 0 [] true -> x := 1 [] true -> x := 2 end
";

/// A bit and a number travel, and are sent again until they are acknowledged.
pub const ALTERNATING_BIT: &[u8] =
    b"message data begin kind : 8 bits = 1; seq : 1 bits; body : 16 bits end
message ack begin kind : 8 bits = 2; seq : 1 bits end
process a
inp last : 0..1000
var seq : 0..1; body : 0..65535 = 7; busy : boolean; done : 0..1000
timer again
begin
  not busy and done < last ->
    send data(seq, body) to b; busy := true; start again after 200
[] rcv ack from b ->
    if busy and ack.seq = seq ->
      seq := 1 - seq; body := (body + 1) mod 65536; busy := false;
      stop again; done := min(done + 1, 1000)
    fi
[] timeout again ->
    send data(seq, body) to b; start again after 200
end
process b
var want : 0..1; got : 0..65535; count : 0..1000
begin
  rcv data from a ->
    if data.seq = want ->
      got := data.body; want := 1 - want; count := min(count + 1, 1000)
    fi;
    send ack(data.seq) to a
end
";

/// A process chooses a digit.
pub const DIGIT: &[u8] = b"process a var x : 0..9 begin true -> choose x end";

/// It chooses one of three values.
pub const THREE: &[u8] = b"process a var x : 0..2 begin true -> choose x end";

/// It chooses one of ten values from -5 on.
pub const BELOW: &[u8] = b"process a var x : -5..4 begin true -> choose x end";

/// It chooses one of 2^32 values.
pub const WORD: &[u8] = b"process a var x : 0..4294967295 begin true -> choose x end";

/// It chooses one of one value, and then a digit.
pub const ONE: &[u8] = b"process a var y : 3..3; x : 0..9 begin true -> choose y; choose x end";

/// Two processes choose digits.
pub const PAIR: &[u8] = b"process a var x : 0..9 begin true -> choose x end \
process b var x : 0..9 begin true -> choose x end";

/// A die is thrown four times, and what is thrown is counted as high or low, where it may be both.
pub const THROWS: &[u8] = b"message throw begin pips : 8 bits end \
process a var die : 1..6; left : 0..4 = 4 \
begin left > 0 -> choose die; left := max(left - 1, 0); send throw(die) to b end \
process b var high : 0..9; low : 0..9 \
begin rcv throw from a -> if throw.pips > 2 -> high := min(high + 1, 9) \
[] throw.pips < 6 -> low := min(low + 1, 9) fi end";
