// No code: the notions that everything uses, a choice by a test, the first such, bytes, and what settles a result.
#![tactic(auto)]
