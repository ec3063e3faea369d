//! Whole texts as their tokens: tables of texts and of what is said of them.
use rl_lex::{
    KindWord, ModeWord, Nest, Next, Operator, Separator, Token, TokenKind, Way, Worded, next_token,
};
use std::test::Fail;

/// A text, and its tokens. A mark stands as it is written, and a reserved word in capitals; what is written stands in brackets
/// behind the `i` of an identifier, the `n` of an integer, the `s` of a string and the `q` of a quoted spelling. A refusal is
/// `?` and the number of bytes before it.
type Row = (&'static str, &'static str);

const ROWS: &[Row] = &[
    // Statements.
    ("a := b*c ** 2; % end", "i[a] := i[b] * i[c] ** n[2] ;"),
    (
        "<<if x neq 1 then 'y else \"z\">>;",
        "<< IF i[x] NEQ n[1] THEN q['y] ELSE s[\"z\"] >> ;",
    ),
    (
        "for each x in l collect !for;",
        "FOR EACH i[x] IN i[l] COLLECT i[!for] ;",
    ),
    (
        "symbolic procedure f(x,y); x.y$",
        "SYMBOLIC PROCEDURE i[f] ( i[x] , i[y] ) ; i[x] . i[y] $",
    ),
    ("a<=b>>=c", "i[a] <= i[b] >> = i[c]"),
    // Reserved words, in any letters.
    (
        "and begin collect do each else end eq expr fexpr for foreach go goto if in join lambda",
        "AND BEGIN COLLECT DO EACH ELSE END EQ EXPR FEXPR FOR FOREACH GO GOTO IF IN JOIN LAMBDA",
    ),
    (
        "lisp macro member memq neq not or procedure repeat return scalar smacro symbolic then to until while",
        "LISP MACRO MEMBER MEMQ NEQ NOT OR PROCEDURE REPEAT RETURN SCALAR SMACRO SYMBOLIC THEN TO UNTIL WHILE",
    ),
    (
        "AND BEGIN COLLECT DO EACH ELSE END EQ EXPR FEXPR FOR FOREACH GO GOTO IF IN JOIN LAMBDA",
        "AND BEGIN COLLECT DO EACH ELSE END EQ EXPR FEXPR FOR FOREACH GO GOTO IF IN JOIN LAMBDA",
    ),
    (
        "LISP MACRO MEMBER MEMQ NEQ NOT OR PROCEDURE REPEAT RETURN SCALAR SMACRO SYMBOLIC THEN TO UNTIL WHILE",
        "LISP MACRO MEMBER MEMQ NEQ NOT OR PROCEDURE REPEAT RETURN SCALAR SMACRO SYMBOLIC THEN TO UNTIL WHILE",
    ),
    (
        "And bEGIN colLect dO eAch ElsE eNd Eq eXpr FExpr fOr forEach Go gOTo iF In JOIn lambDa",
        "AND BEGIN COLLECT DO EACH ELSE END EQ EXPR FEXPR FOR FOREACH GO GOTO IF IN JOIN LAMBDA",
    ),
    (
        "LiSP maCro MeMber memQ nEq NOt oR proceDure repEAt reTURN scaLAR sMacro symBOLic tHEN tO unTIL whILe",
        "LISP MACRO MEMBER MEMQ NEQ NOT OR PROCEDURE REPEAT RETURN SCALAR SMACRO SYMBOLIC THEN TO UNTIL WHILE",
    ),
    // Names that are none.
    (
        "ands begi collects d eac elsewhere en eqs exp fexprs fo for1 for_ fore g gotos",
        "i[ands] i[begi] i[collects] i[d] i[eac] i[elsewhere] i[en] i[eqs] i[exp] i[fexprs] i[fo] i[for1] i[for_] i[fore] i[g] i[gotos]",
    ),
    (
        "i ink joi lambdas lis macros membe mem ne no o procedur nil t wend quote",
        "i[i] i[ink] i[joi] i[lambdas] i[lis] i[macros] i[membe] i[mem] i[ne] i[no] i[o] i[procedur] i[nil] i[t] i[wend] i[quote]",
    ),
    ("a1_b a_ \u{e9}t\u{e9}", "i[a1_b] i[a_] i[\u{e9}t\u{e9}]"),
    // A word with `!` is none.
    (
        "!for f!or fo!r !F!O!R !and e!nd",
        "i[!for] i[f!or] i[fo!r] i[!F!O!R] i[!and] i[e!nd]",
    ),
    (
        "!_a !1 x!! a!;b; ! a a! b !%a",
        "i[!_a] i[!1] i[x!!] i[a!;b] ; i[! a] i[a! b] i[!%a]",
    ),
    ("!", "?1"),
    ("a!", "?2"),
    ("for!", "?4"),
    // Marks.
    (";$(),:.+-*/=", "; $ ( ) , : . + - * / ="),
    ("< >", "< >"),
    (":= >= <= ** << >>", ":= >= <= ** << >>"),
    (">>> <<= *** ****", ">> > << = ** * ** **"),
    (":== ::= >== <>", ":= = : := >= = < >"),
    ("=> =< < = : = * *", "= > = < < = : = * *"),
    // Bytes that begin nothing.
    ("a ? b", "i[a] ?2"),
    ("?", "?0"),
    ("@", "?0"),
    ("[", "?0"),
    ("]", "?0"),
    ("{", "?0"),
    ("}", "?0"),
    ("#", "?0"),
    ("&", "?0"),
    ("|", "?0"),
    ("\\", "?0"),
    ("^", "?0"),
    ("`", "?0"),
    ("~", "?0"),
    ("_a", "?0"),
    ("\x00", "?0"),
    ("\x0b", "?0"),
    ("a\x7f", "i[a] ?1"),
    // Blanks and comments.
    ("", ""),
    ("\t\n\x0c\r ", ""),
    ("%", ""),
    ("%%\n%\n", ""),
    ("% a\nb", "i[b]"),
    ("a%b\nc", "i[a] i[c]"),
    ("a%b", "i[a]"),
    ("a%\r%b\nc", "i[a] i[c]"),
    ("for%x\neach", "FOR EACH"),
    ("fo%\nr", "i[fo] i[r]"),
    (":%\n=", ": ="),
    ("a:=%x;\n%y\n1;", "i[a] := n[1] ;"),
    ("12%3\n4", "n[12] n[4]"),
    ("a%\"\nb", "i[a] i[b]"),
    // Strings.
    ("\"a;b\";", "s[\"a;b\"] ;"),
    ("\"$\"$\"\"", "s[\"$\"] $ s[\"\"]"),
    ("\"a\"\"b\"c", "s[\"a\"\"b\"] i[c]"),
    ("\"\"\"\"", "s[\"\"\"\"]"),
    ("\"%\n!\x00'\"", "s[\"%\n!\x00'\"]"),
    ("\"a\" \"b\"", "s[\"a\"] s[\"b\"]"),
    ("\"ab", "?3"),
    ("\"\"\"", "?3"),
    ("a \"b;", "i[a] ?5"),
    // Integers.
    ("0 007 12", "n[0] n[007] n[12]"),
    (
        "1a 12x3 1.5 1_",
        "n[1] i[a] n[12] i[x3] n[1] . n[5] n[1] ?13",
    ),
    ("-5 +5", "- n[5] + n[5]"),
    ("576460752303423487", "n[576460752303423487]"),
    ("0576460752303423487;", "n[0576460752303423487] ;"),
    ("576460752303423488", "?17"),
    ("576460752303423490", "?17"),
    ("5764607523034234870", "?18"),
    ("1152921504606846976", "?18"),
    ("-576460752303423487", "- n[576460752303423487]"),
    ("-576460752303423488", "- ?18"),
    // `'` and a spelling of Lisp text.
    ("'a 'FOR 'for each", "q['a] q['FOR] q['for] EACH"),
    ("'a'b ''a '''()", "q['a] q['b] q[''a] q['''()]"),
    (
        "'; '$a ':= '+ '+a '- 1",
        "q[';] q['$] i[a] q[':] = q['+] q['+] i[a] q['-] n[1]",
    ),
    (
        "'-1 '+1 '1a '!+ '_ '?",
        "q['-1] q['+1] q['1] i[a] q['!+] q['_] q['?]",
    ),
    ("'\"a;b\" '\"a\"\"b\"c", "q['\"a;b\"] q['\"a\"\"b\"] i[c]"),
    (
        "'() '[] '[a (b)] '(())",
        "q['()] q['[]] q['[a (b)]] q['(())]",
    ),
    ("'(a . (b)) $", "q['(a . (b))] $"),
    (
        "'(a.b) '(1.2) '(a 'b . c)",
        "q['(a.b)] q['(1.2)] q['(a 'b . c)]",
    ),
    ("'a.b", "q['a] . i[b]"),
    ("' a", "q[' a]"),
    ("'% x;\ny", "q['% x;\ny]"),
    ("'(a %)\n b);", "q['(a %)\n b)] ;"),
    ("'(if a:=\";\";)$", "q['(if a:=\";\";)] $"),
    ("'576460752303423487", "q['576460752303423487]"),
    ("'-576460752303423488", "q['-576460752303423488]"),
    ("'+576460752303423487", "q['+576460752303423487]"),
    ("'576460752303423488", "?18"),
    ("'-576460752303423489", "?19"),
    ("'+576460752303423488", "?19"),
    ("'", "?1"),
    ("' ", "?2"),
    ("'%x", "?3"),
    ("'a!", "?3"),
    ("'\"a", "?3"),
    ("')", "?1"),
    ("'.a", "?1"),
    ("']", "?1"),
    ("'(a]", "?3"),
    ("'[a)", "?3"),
    ("'[a . b]", "?4"),
    ("'( . a)", "?3"),
    ("x '(a . )", "i[x] ?8"),
    ("'(a.(b)c)", "?7"),
    ("'(a . b . c)", "?8"),
    ("'(((a", "?5"),
    ("'\x00", "?1"),
    ("'(a\x7f)", "?3"),
    // What an earlier text left does nothing.
    ("'a", "q['a]"),
];

/// A text, and what is said of it where it ends before its first byte, behind its first, and so on.
type Cut = (&'static str, &'static [&'static str]);

const CUTS: &[Cut] = &[
    (
        "x:='(a.\"b\");",
        &[
            "",
            "i[x]",
            "i[x] :",
            "i[x] :=",
            "i[x] := ?4",
            "i[x] := ?5",
            "i[x] := ?6",
            "i[x] := ?7",
            "i[x] := ?8",
            "i[x] := ?9",
            "i[x] := ?10",
            "i[x] := q['(a.\"b\")]",
            "i[x] := q['(a.\"b\")] ;",
        ],
    ),
    (
        "if a!; neq 12 then<<%c\nb>>$",
        &[
            "",
            "i[i]",
            "IF",
            "IF",
            "IF i[a]",
            "IF ?5",
            "IF i[a!;]",
            "IF i[a!;]",
            "IF i[a!;] i[n]",
            "IF i[a!;] i[ne]",
            "IF i[a!;] NEQ",
            "IF i[a!;] NEQ",
            "IF i[a!;] NEQ n[1]",
            "IF i[a!;] NEQ n[12]",
            "IF i[a!;] NEQ n[12]",
            "IF i[a!;] NEQ n[12] i[t]",
            "IF i[a!;] NEQ n[12] i[th]",
            "IF i[a!;] NEQ n[12] i[the]",
            "IF i[a!;] NEQ n[12] THEN",
            "IF i[a!;] NEQ n[12] THEN <",
            "IF i[a!;] NEQ n[12] THEN <<",
            "IF i[a!;] NEQ n[12] THEN <<",
            "IF i[a!;] NEQ n[12] THEN <<",
            "IF i[a!;] NEQ n[12] THEN <<",
            "IF i[a!;] NEQ n[12] THEN << i[b]",
            "IF i[a!;] NEQ n[12] THEN << i[b] >",
            "IF i[a!;] NEQ n[12] THEN << i[b] >>",
            "IF i[a!;] NEQ n[12] THEN << i[b] >> $",
        ],
    ),
    (
        "\"a\"\"b\"**-3;",
        &[
            "",
            "?1",
            "?2",
            "s[\"a\"]",
            "?4",
            "?5",
            "s[\"a\"\"b\"]",
            "s[\"a\"\"b\"] *",
            "s[\"a\"\"b\"] **",
            "s[\"a\"\"b\"] ** -",
            "s[\"a\"\"b\"] ** - n[3]",
            "s[\"a\"\"b\"] ** - n[3] ;",
        ],
    ),
];

/// Pieces of a text, each so many times; how many tokens it has, and the place of the byte at which it is refused.
type Long = (&'static [(&'static str, usize)], u32, Option<usize>);

const LONG: &[Long] = &[
    (&[("a", 255)], 1, None),
    (&[("a", 256)], 0, Some(255)),
    (&[("!;", 255)], 1, None),
    (&[("!;", 256)], 0, Some(510)),
    (&[("a", 255), ("!b", 1)], 0, Some(255)),
    (&[("'", 1), ("a", 256)], 0, Some(256)),
    (&[("\"", 1), ("x", 65_535), ("\"", 1)], 1, None),
    (&[("\"", 1), ("x", 65_536), ("\"", 1)], 0, Some(65_536)),
    (&[("\"", 1), ("x", 65_535), ("\"\"", 1)], 0, Some(65_537)),
    (&[("\"\"", 65_536)], 1, None),
    (&[("0", 1_048_577)], 1, None),
    (&[(" ", 1_048_577)], 0, None),
    (&[("%", 1_048_576), ("\n", 1)], 0, None),
    (&[("a;", 524_288), ("b", 1)], 1_048_577, None),
    (&[("'", 1_048_576), ("a", 1)], 1, None),
    (&[("'", 1_048_577)], 0, Some(1_048_577)),
    (&[("'", 1), ("(", 524_288), (")", 524_288)], 1, None),
    (&[("'", 1), ("(", 1_048_576)], 0, Some(1_048_577)),
    (&[("'", 1), ("[(", 262_144), (")]", 262_144)], 1, None),
    (
        &[("'", 1), ("(a.", 262_143), ("b", 1), (")", 262_143)],
        1,
        None,
    ),
];

fn operator_text(operator: Operator) -> &'static str {
    match operator {
        Operator::Or => "OR",
        Operator::And => "AND",
        Operator::Equal => "=",
        Operator::Unequal => "NEQ",
        Operator::AtLeast => ">=",
        Operator::Greater => ">",
        Operator::AtMost => "<=",
        Operator::Less => "<",
        Operator::Plus => "+",
        Operator::Minus => "-",
        Operator::Times => "*",
        Operator::Divide => "/",
    }
}

/// What tokens with a word inside are said to be.
fn grouped_text(kind: TokenKind) -> &'static str {
    match kind {
        TokenKind::Mode(ModeWord::Symbolic) => "SYMBOLIC",
        TokenKind::Mode(ModeWord::Lisp) => "LISP",
        TokenKind::Kind(KindWord::Expr) => "EXPR",
        TokenKind::Kind(KindWord::Fexpr) => "FEXPR",
        TokenKind::Kind(KindWord::Macro) => "MACRO",
        TokenKind::Kind(KindWord::Smacro) => "SMACRO",
        TokenKind::Word(Worded::Eq) => "EQ",
        TokenKind::Word(Worded::Member) => "MEMBER",
        TokenKind::Word(Worded::Memq) => "MEMQ",
        TokenKind::Does(Way::Do) => "DO",
        TokenKind::Does(Way::Collect) => "COLLECT",
        TokenKind::Does(Way::Join) => "JOIN",
        TokenKind::Separating(Separator::Semicolon) => ";",
        TokenKind::Separating(Separator::Dollar) => "$",
        TokenKind::Infix(operator) => operator_text(operator),
        _ => "!",
    }
}

/// What marks, and what is written in many ways, are said to be.
fn mark_text(kind: TokenKind) -> &'static str {
    match kind {
        TokenKind::Identifier => "i",
        TokenKind::Integer => "n",
        TokenKind::String => "s",
        TokenKind::Quoted => "q",
        TokenKind::Power => "**",
        TokenKind::Dot => ".",
        TokenKind::Assign => ":=",
        TokenKind::Open => "(",
        TokenKind::Close => ")",
        TokenKind::Comma => ",",
        TokenKind::Colon => ":",
        TokenKind::OpenBlock => "<<",
        TokenKind::CloseBlock => ">>",
        _ => grouped_text(kind),
    }
}

fn kind_text(kind: TokenKind) -> &'static str {
    match kind {
        TokenKind::Procedure => "PROCEDURE",
        TokenKind::Not => "NOT",
        TokenKind::If => "IF",
        TokenKind::Then => "THEN",
        TokenKind::Else => "ELSE",
        TokenKind::While => "WHILE",
        TokenKind::Repeat => "REPEAT",
        TokenKind::Until => "UNTIL",
        TokenKind::For => "FOR",
        TokenKind::Each => "EACH",
        TokenKind::Foreach => "FOREACH",
        TokenKind::In => "IN",
        TokenKind::Begin => "BEGIN",
        TokenKind::End => "END",
        TokenKind::Scalar => "SCALAR",
        TokenKind::Return => "RETURN",
        TokenKind::Go => "GO",
        TokenKind::To => "TO",
        TokenKind::Goto => "GOTO",
        TokenKind::Lambda => "LAMBDA",
        _ => mark_text(kind),
    }
}

/// Bytes that are put together. For want of memory some are left out, and then no row is right.
#[derive(Drop)]
struct Text {
    bytes: Vec<u8>,
}

impl Text {
    fn new(rt: &HostRuntime) -> Text {
        Text {
            bytes: Vec::new(rt.alloc()),
        }
    }

    fn put(&mut self, piece: &[u8]) {
        let _ = self.bytes.extend_from_slice(piece);
    }

    /// Puts a piece behind a blank, where it is not the first.
    fn put_apart(&mut self, piece: &[u8]) {
        if !self.bytes.is_empty() {
            self.put(b" ");
        }
        self.put(piece);
    }

    /// The digits of a number.
    fn put_number(&mut self, n: usize) {
        if n >= 10 {
            self.put_number(n / 10);
        }
        self.put(&[b'0' + (n % 10) as u8]);
    }

    fn put_token(&mut self, text: &[u8], token: Token) {
        self.put_apart(kind_text(token.kind).as_bytes());
        if !matches!(
            token.kind,
            TokenKind::Identifier | TokenKind::Integer | TokenKind::String | TokenKind::Quoted
        ) {
            return;
        }
        self.put(b"[");
        if token.from <= token.to && token.to <= text.len() {
            self.put(&text[token.from..token.to]);
        }
        self.put(b"]");
    }
}

/// What stands next; a place past the end, or a text that is too long, is refused.
fn next(text: &[u8], at: usize, nest: &mut Nest) -> Next {
    if at > text.len() || text.len() > 1_048_577 {
        return Next::Bad(at);
    }
    next_token(text, at, nest)
}

/// Says the tokens of a text.
fn say(text: &[u8], nest: &mut Nest, said: &mut Text) {
    let mut at = 0usize;
    for _ in 0..text.len() + 1 {
        match next(text, at, nest) {
            Next::Token(token) => {
                said.put_token(text, token);
                at = token.to;
            }
            Next::Bad(k) => {
                said.put_apart(b"?");
                return said.put_number(k);
            }
            Next::End => return,
        }
    }
}

/// How many tokens a text has, and where it is refused.
fn count(text: &[u8], nest: &mut Nest) -> (u32, Option<usize>) {
    let mut at = 0usize;
    let mut tokens = 0u32;
    for _ in 0..text.len() + 1 {
        match next(text, at, nest) {
            Next::Token(token) => at = token.to,
            Next::Bad(k) => return (tokens, Some(k)),
            Next::End => return (tokens, None),
        }
        tokens = tokens.saturating_add(1);
    }
    (tokens, None)
}

fn is_said(rt: &HostRuntime, text: &[u8], want: &str, nest: &mut Nest) -> bool {
    let mut said = Text::new(rt);
    say(text, nest, &mut said);
    said.bytes.as_slice() == want.as_bytes()
}

/// The first row of which something else is said.
fn first_wrong(rt: &HostRuntime, rows: &[Row]) -> Result<Option<usize>, Fail> {
    let mut nest = Nest::new(rt.alloc())?;
    for (i, (text, want)) in rows.iter().enumerate() {
        if !is_said(rt, text.as_bytes(), want, &mut nest) {
            return Ok(Some(i));
        }
    }
    Ok(None)
}

/// The first length at which something else is said of a text.
fn wrong_cut(rt: &HostRuntime, text: &[u8], wants: &[&str], nest: &mut Nest) -> Option<usize> {
    for (n, want) in wants.iter().enumerate() {
        if n > text.len() || !is_said(rt, &text[..n], want, nest) {
            return Some(n);
        }
    }
    None
}

/// The first row of which something else is said at a length, and the length.
fn first_wrong_cut(rt: &HostRuntime, rows: &[Cut]) -> Result<Option<(usize, usize)>, Fail> {
    let mut nest = Nest::new(rt.alloc())?;
    for (i, (text, wants)) in rows.iter().enumerate() {
        let bytes = text.as_bytes();
        if wants.len() != bytes.len() + 1 {
            return Ok(Some((i, wants.len())));
        }
        if let Some(n) = wrong_cut(rt, bytes, wants, &mut nest) {
            return Ok(Some((i, n)));
        }
    }
    Ok(None)
}

/// Pieces, each so many times.
fn text_of(rt: &HostRuntime, pieces: &[(&str, usize)]) -> Text {
    let mut text = Text::new(rt);
    for (piece, times) in pieces {
        for _ in 0..*times {
            text.put(piece.as_bytes());
        }
    }
    text
}

/// The first row that has other tokens.
fn first_wrong_length(rt: &HostRuntime, rows: &[Long]) -> Result<Option<usize>, Fail> {
    let mut nest = Nest::new(rt.alloc())?;
    for (i, (pieces, tokens, refused)) in rows.iter().enumerate() {
        let text = text_of(rt, pieces);
        if count(&text.bytes, &mut nest) != (*tokens, *refused) {
            return Ok(Some(i));
        }
    }
    Ok(None)
}

#[test]
fn texts_have_their_tokens(rt: HostRuntime) -> Result<(), Fail> {
    assert_eq!(rt; first_wrong(&rt, ROWS)?, None);
    Ok(())
}

#[test]
fn texts_end_after_each_byte(rt: HostRuntime) -> Result<(), Fail> {
    assert_eq!(rt; first_wrong_cut(&rt, CUTS)?, None);
    Ok(())
}

#[test]
fn long_texts_have_their_tokens(rt: HostRuntime) -> Result<(), Fail> {
    assert_eq!(rt; first_wrong_length(&rt, LONG)?, None);
    Ok(())
}
