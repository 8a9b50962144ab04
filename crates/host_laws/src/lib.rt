// What the host's encodings, and the answers that stand behind them, say beyond one call: that no two mean the same. There is no code here.
#![tactic(auto)]
