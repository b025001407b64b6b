//! What is printed of a text.

use super::accepted::{ALTERNATING_BIT, TRI};
use std::alloc::Global;
use std::process::Abort;
use std::test::Fail;
use tap_base::{Bytes, NoMemory};
use tap_front::tree_of;
use tap_parser::ParseFault;
use tap_printer::print;

const TRI_PRINTED: &str = "process a
var x : 0..2
begin true -> x := 0
[] true -> x := 1
[] true -> x := 2
end
";

const ALTERNATING_BIT_PRINTED: &str = "message data
begin kind : 8 bits = 1; seq : 1 bits; body : 16 bits
end
message ack
begin kind : 8 bits = 2; seq : 1 bits
end
process a
inp last : 0..1000
var seq : 0..1; body : 0..65535 = 7; busy : boolean; done : 0..1000
timer again
begin not busy and done < last -> send data (seq, body) to b; busy := true; start again after 200
[] rcv ack from b -> if busy and ack.seq = seq -> seq := 1 - seq; body := (body + 1) mod 65536; busy := false; stop again; done := min(done + 1, 1000) fi
[] timeout again -> send data (seq, body) to b; start again after 200
end
process b
var want : 0..1; got : 0..65535; count : 0..1000
begin rcv data from a -> if data.seq = want -> got := data.body; want := 1 - want; count := min(count + 1, 1000) fi; send ack (data.seq) to a
end
";

/// The canonical text of the tree that a text is read as, or why there is none.
fn reprint(alloc: Global, text: &str) -> Result<Bytes, ParseFault> {
    let tree = tree_of(alloc, text.as_bytes())?;
    match print(alloc, &tree) {
        Ok(bytes) => Ok(bytes),
        Err(NoMemory) => Err(ParseFault::NoMemory),
    }
}

/// What is printed of a text.
fn printed(alloc: Global, text: &str) -> Result<String, Fail> {
    match reprint(alloc, text) {
        Ok(found) => match String::from_utf8(found.items) {
            Ok(text) => Ok(text),
            Err(_) => Ok(format!(in alloc; "no text")?),
        },
        Err(fault) => Ok(format!(in alloc; "{fault:?}")?),
    }
}

/// The text is printed so, and what is printed is printed as it is.
fn check_printed(rt: &impl Abort, alloc: Global, text: &str, wanted: &str) -> Result<(), Fail> {
    for text in [text, wanted] {
        let found = printed(alloc, text)?;
        assert!(rt; found.as_str() == wanted, "{text}: {found}");
    }
    Ok(())
}

#[test]
fn an_expression_is_printed(rt: HostRuntime) -> Result<(), Fail> {
    let table = [
        ("1 - (2 - 3)", "1 - (2 - 3)"),
        ("(1 - 2) - 3", "1 - 2 - 3"),
        ("-(-1)", "- (- 1)"),
        ("1-(-2)", "1 - - 2"),
        ("(not a) = b", "(not a) = b"),
        ("not (a = b)", "not a = b"),
        ("(a = b) = c", "(a = b) = c"),
        ("a = (b = c)", "a = (b = c)"),
        ("min((1), 2) * (3 + 4)", "min(1, 2) * (3 + 4)"),
        ("max ( (a or b) , not c )", "max(a or b, not c)"),
        ("x[(1)]", "x [1]"),
        ("x[y[i+1]]", "x [y [i + 1]]"),
        ("m . f", "m.f"),
        ("007", "7"),
        ("0000", "0"),
        ("9223372036854775807", "9223372036854775807"),
        ("((((true))))", "true"),
        ("(a and b) or (c and d)", "a and b or c and d"),
        ("(a or b) and (c or d)", "(a or b) and (c or d)"),
        ("a or (b or c)", "a or (b or c)"),
        ("(a or b) or c", "a or b or c"),
        ("a and (b and c)", "a and (b and c)"),
        ("not (not a)", "not (not a)"),
        ("not (a and b)", "not (a and b)"),
        ("not a and not b", "not a and not b"),
        ("(not a) and (not b)", "not a and not b"),
        ("(a + b) = (c - d)", "a + b = c - d"),
        ("a*b+c*d", "a * b + c * d"),
        ("a*(b+c)*d", "a * (b + c) * d"),
        ("a*(b*c)", "a * (b * c)"),
        ("a div (b mod c)", "a div (b mod c)"),
        ("(a div b) mod c", "a div b mod c"),
        ("-(a+b)", "- (a + b)"),
        ("(-a)*(-b)", "- a * - b"),
        ("-(a*b)", "- (a * b)"),
        ("(-a)", "- a"),
        ("-x[1]", "- x [1]"),
        ("-min(a,b)", "- min(a, b)"),
        ("(a<b)=(c>=d)", "(a < b) = (c >= d)"),
        ("a!=b or a<=b", "a != b or a <= b"),
        ("(a = b) and c > d", "a = b and c > d"),
    ];
    for (written, wanted) in table {
        let alloc = rt.alloc();
        let text = format!(in alloc; "process a begin true -> x := {written} end")?;
        let wanted = format!(in alloc; "process a\nbegin true -> x := {wanted}\nend\n")?;
        check_printed(&rt, alloc, text.as_str(), wanted.as_str())?;
    }
    Ok(())
}

#[test]
fn a_text_is_printed(rt: HostRuntime) -> Result<(), Fail> {
    let table = [
        (
            "process a var x:0..007 begin x=0->x:=((x)+1) mod 8 end # c",
            "process a\nvar x : 0..7\nbegin x = 0 -> x := (x + 1) mod 8\nend\n",
        ),
        ("process a begin end", "process a\nbegin\nend\n"),
        (
            "process a var x:0..-1 begin end",
            "process a\nvar x : 0..- 1\nbegin\nend\n",
        ),
        (
            "process a const k=-001;l=2 begin end",
            "process a\nconst k = - 1; l = 2\nbegin\nend\n",
        ),
        (
            "process a const k=-0 begin end",
            "process a\nconst k = 0\nbegin\nend\n",
        ),
        (
            "process a begin true->send m(1) to b end",
            "process a\nbegin true -> send m (1) to b\nend\n",
        ),
        (
            "process a begin true->send m() to b;send m(x,(y)) to b end",
            "process a\nbegin true -> send m () to b; send m (x, y) to b\nend\n",
        ),
        (
            "process a begin true->if x->skip[]y->do 03 times z->skip[]true->if w->skip fi od fi[]b->skip end",
            "process a\nbegin true -> if x -> skip\n[] y -> do 3 times z -> skip\n[] true -> if w -> skip fi od fi\n[] b -> skip\nend\n",
        ),
        (
            "process a begin true->x,y[(i)]:=y[0],-2;choose x;choose y[i+1];start t after(5);stop t end",
            "process a\nbegin true -> x, y [i] := y [0], - 2; choose x; choose y [i + 1]; start t after 5; stop t\nend\n",
        ),
        (
            "process a const k=1;l=-2 inp p:boolean;q:k..l var x:array 4 of 0..k=-1;y:boolean=k;z:l..3 timer t,u begin rcv m from b->skip[]timeout t->skip[]x=1->skip end",
            "process a\nconst k = 1; l = - 2\ninp p : boolean; q : k..l\nvar x : array 4 of 0..k = - 1; y : boolean = k; z : l..3\ntimer t, u\nbegin rcv m from b -> skip\n[] timeout t -> skip\n[] x = 1 -> skip\nend\n",
        ),
        (
            "message m begin f:08bits;g:1bits=01 end message n begin h:3 bits end process a begin true->send m(1)to b end process b begin rcv m from a->skip[]rcv n from c->skip end process c var x:boolean begin x->send n(7)to b end",
            "message m\nbegin f : 8 bits; g : 1 bits = 1\nend\nmessage n\nbegin h : 3 bits\nend\nprocess a\nbegin true -> send m (1) to b\nend\nprocess b\nbegin rcv m from a -> skip\n[] rcv n from c -> skip\nend\nprocess c\nvar x : boolean\nbegin x -> send n (7) to b\nend\n",
        ),
        (TRI, TRI_PRINTED),
        (ALTERNATING_BIT, ALTERNATING_BIT_PRINTED),
    ];
    for (text, wanted) in table {
        check_printed(&rt, rt.alloc(), text, wanted)?;
    }
    Ok(())
}
