ghost use Rattle.std.specs.Prelude.{◌≡◌};
ghost use Rattle.std.specs.Str.{bytes_eq};
ghost use Rattle.vlog_read_lex.specs.Words.{
  is_among,
  is_outside_word,
  words_a_to_d,
  words_e,
  words_f_to_h,
  words_i_to_m,
  words_n,
  words_p,
  words_r,
  words_s,
  words_t,
  words_u_to_z,
};

/// Whether a text is another one.
pub fn is(text: &[u8], other: &[u8]) -> bool
    ensures { result ≡ bytes_eq text.now other.now }
{
    text == other
}

fn is_a_to_d(word: &[u8]) -> bool
    ensures { result ≡ is_among words_a_to_d word.now }
{
    is(word, b"and")
        || is(word, b"automatic")
        || is(word, b"buf")
        || is(word, b"bufif0")
        || is(word, b"bufif1")
        || is(word, b"casex")
        || is(word, b"cell")
        || is(word, b"cmos")
        || is(word, b"config")
        || is(word, b"deassign")
        || is(word, b"defparam")
        || is(word, b"design")
        || is(word, b"disable")
}

fn is_e(word: &[u8]) -> bool
    ensures { result ≡ is_among words_e word.now }
{
    is(word, b"edge")
        || is(word, b"endconfig")
        || is(word, b"endfunction")
        || is(word, b"endgenerate")
        || is(word, b"endprimitive")
        || is(word, b"endspecify")
        || is(word, b"endtable")
        || is(word, b"endtask")
        || is(word, b"event")
}

fn is_f_to_h(word: &[u8]) -> bool
    ensures { result ≡ is_among words_f_to_h word.now }
{
    is(word, b"for")
        || is(word, b"force")
        || is(word, b"forever")
        || is(word, b"fork")
        || is(word, b"function")
        || is(word, b"generate")
        || is(word, b"genvar")
        || is(word, b"highz0")
        || is(word, b"highz1")
}

fn is_i_to_m(word: &[u8]) -> bool
    ensures { result ≡ is_among words_i_to_m word.now }
{
    is(word, b"ifnone")
        || is(word, b"incdir")
        || is(word, b"include")
        || is(word, b"initial")
        || is(word, b"inout")
        || is(word, b"instance")
        || is(word, b"integer")
        || is(word, b"join")
        || is(word, b"large")
        || is(word, b"liblist")
        || is(word, b"library")
        || is(word, b"macromodule")
        || is(word, b"medium")
}

fn is_n(word: &[u8]) -> bool
    ensures { result ≡ is_among words_n word.now }
{
    is(word, b"nand")
        || is(word, b"nmos")
        || is(word, b"nor")
        || is(word, b"noshowcancelled")
        || is(word, b"not")
        || is(word, b"notif0")
        || is(word, b"notif1")
}

fn is_p(word: &[u8]) -> bool
    ensures { result ≡ is_among words_p word.now }
{
    is(word, b"pmos")
        || is(word, b"primitive")
        || is(word, b"pull0")
        || is(word, b"pull1")
        || is(word, b"pulldown")
        || is(word, b"pullup")
        || is(word, b"pulsestyle_onevent")
        || is(word, b"pulsestyle_ondetect")
}

fn is_r(word: &[u8]) -> bool
    ensures { result ≡ is_among words_r word.now }
{
    is(word, b"rcmos")
        || is(word, b"real")
        || is(word, b"realtime")
        || is(word, b"release")
        || is(word, b"repeat")
        || is(word, b"rnmos")
        || is(word, b"rpmos")
        || is(word, b"rtran")
        || is(word, b"rtranif0")
        || is(word, b"rtranif1")
}

fn is_s(word: &[u8]) -> bool
    ensures { result ≡ is_among words_s word.now }
{
    is(word, b"scalared")
        || is(word, b"showcancelled")
        || is(word, b"small")
        || is(word, b"specify")
        || is(word, b"specparam")
        || is(word, b"strong0")
        || is(word, b"strong1")
        || is(word, b"supply0")
        || is(word, b"supply1")
}

fn is_t(word: &[u8]) -> bool
    ensures { result ≡ is_among words_t word.now }
{
    is(word, b"table")
        || is(word, b"task")
        || is(word, b"time")
        || is(word, b"tran")
        || is(word, b"tranif0")
        || is(word, b"tranif1")
        || is(word, b"tri")
        || is(word, b"tri0")
        || is(word, b"tri1")
        || is(word, b"triand")
        || is(word, b"trior")
        || is(word, b"trireg")
}

fn is_u_to_z(word: &[u8]) -> bool
    ensures { result ≡ is_among words_u_to_z word.now }
{
    is(word, b"unsigned")
        || is(word, b"use")
        || is(word, b"uwire")
        || is(word, b"vectored")
        || is(word, b"wait")
        || is(word, b"wand")
        || is(word, b"weak0")
        || is(word, b"weak1")
        || is(word, b"while")
        || is(word, b"wor")
        || is(word, b"xnor")
        || is(word, b"xor")
}

/// Whether a word is one of those that the language leaves out.
#[tactic(auto, unfolding(crate::specs::Words::is_outside_word))]
pub fn is_outside_word(word: &[u8]) -> bool
    ensures { result ≡ is_outside_word word.now }
{
    is_a_to_d(word)
        || is_e(word)
        || is_f_to_h(word)
        || is_i_to_m(word)
        || is_n(word)
        || is_p(word)
        || is_r(word)
        || is_s(word)
        || is_t(word)
        || is_u_to_z(word)
}
