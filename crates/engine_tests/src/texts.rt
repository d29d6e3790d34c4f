// What a text reads as, printed again.
use expr_read::{print_expr, read_expr};
use std::test::Fail;

#[test]
fn prints_what_it_reads(rt: HostRuntime) -> Result<(), Fail> {
    let rows: [(&str, &str); 21] = [
        ("(a+b)*c - -1", "(a + b) * c - -1"),
        (
            "!(v[1]>2?At((v),0)==0:true)&&Max( )<(w<3)",
            "!(v[1] > 2 ? At(v, 0) == 0 : true) && Max() < (w < 3)",
        ),
        ("a||b&&c==d<e+f*-g[h]", "a || b && c == d < e + f * -g[h]"),
        (
            "(((((a||b)&&c)==d)<e)+f)*g",
            "(((((a || b) && c) == d) < e) + f) * g",
        ),
        ("a-b-c", "a - b - c"),
        ("a-(b-c)", "a - (b - c)"),
        ("(a<b)<c", "a < b < c"),
        ("a<(b<c)", "a < (b < c)"),
        ("a?b:c?d:e", "a ? b : c ? d : e"),
        ("(a?b:c)?d:e", "(a ? b : c) ? d : e"),
        ("a?(b?c:d):e", "a ? b ? c : d : e"),
        ("(-a)[1]", "(-a)[1]"),
        ("-(a[1])", "-a[1]"),
        ("-(a*b)", "-(a * b)"),
        ("(-a)*b", "-a * b"),
        ("\t_x9 !=\tfalse ", "_x9 != false"),
        ("0", "0"),
        ("f()", "f()"),
        ("f( )", "f()"),
        ("f (x)", "f(x)"),
        ("f(x,(y))", "f(x, y)"),
    ];
    for (text, wanted) in rows {
        let expr = read_expr(rt.alloc(), text.as_bytes())?;
        let printed = print_expr(rt.alloc(), &expr)?;
        assert_eq!(rt; printed.as_bytes(), wanted.as_bytes(), "at {text}");
    }
    Ok(())
}
