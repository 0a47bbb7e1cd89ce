//! The program runs on the one word `run`.

ghost use Rattle.std.specs.Prelude.{◌≡◌, ◌↔◌, [], ◌∷◌, IsTrue, map, codes, string_bytes};

/// Whether the words after the program's name are the one word `run`.
pub fn is_run(words: &[String]) -> bool
    ensures { IsTrue result ↔ (map (λ word. string_bytes word) words.now ≡ codes "run" ∷ []) }
{
    words.len() == 1 && words[0].as_str() == "run"
}
