//! Machines: objects whose steps make one history.

/// An object that is changed by steps, each of which is one entry of its history.
pub trait Machine: Drop {
    ghost use Rattle.std.specs.Prelude.{◌≡◌, ℕ, ◌+◌, ◌<◌, ◌∷◌, ◌⊎◌, length};
    ghost use Rattle.turn_gate.specs.History.{History, entry};

    /// What a step asks for.
    type Op;

    /// What a step replies.
    type Reply;

    /// What can be asked without a step.
    type Query;

    /// What such a question finds.
    type Found;

    /// What no step changes.
    type Setting;

    /// The machine's setting.
    ghost setting: { Self → Self.Setting };

    /// How many entries its history has room for.
    ghost room: { Self.Setting → ℕ };

    /// The machine stands for the history.
    ghost stands: { Self → History Self.Op Self.Reply → Type 0 };

    /// The history is one that a machine of this setting makes.
    ghost legal: { Self.Setting → History Self.Op Self.Reply → Type 0 };

    /// The caller may make this step.
    ghost may: { Self.Setting → ℕ → Self.Op → Type 0 };

    /// What a question finds after the history.
    ghost answer: { Self.Setting → Self.Query → History Self.Op Self.Reply → Self.Found };

    /// The version after the history.
    ghost version_of: { History Self.Op Self.Reply → ℕ };

    /// Makes one entry of the caller `who`.
    fn step(&mut self, who: u32, op: Self::Op) -> Self::Reply
        requires may { may (setting self.old) who op }
        requires room { (H : History Self.Op Self.Reply) × stands self.old H × (length H < room (setting self.old)) }
        ensures setting { setting self.new ≡ setting self.old }
        ensures stands { (H : History Self.Op Self.Reply) → stands self.old H → stands self.new (entry who op result ∷ H) }
        ensures legal { (H : History Self.Op Self.Reply) → stands self.old H → legal (setting self.old) (entry who op result ∷ H) }
        ensures version { (H : History Self.Op Self.Reply) → stands self.old H → (version_of (entry who op result ∷ H) ≡ version_of H) ⊎ (version_of (entry who op result ∷ H) ≡ version_of H + 1) };

    /// Answers without a step.
    fn ask(&self, query: &Self::Query) -> Self::Found
        ensures { (H : History Self.Op Self.Reply) → stands self.now H → result ≡ answer (setting self.now) query.now H };

    /// The version, which is 0 after no entry.
    fn version(&self) -> u32
        ensures version { (H : History Self.Op Self.Reply) → stands self.now H → result ≡ version_of H }
        ensures least { (H : History Self.Op Self.Reply) → stands self.now H → length H ≡ 0 → result ≡ 0 }
        ensures legal { (H : History Self.Op Self.Reply) → stands self.now H → legal (setting self.now) H }
        ensures room { room (setting self.now) < 2147483648 };
}
